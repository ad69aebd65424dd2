// The records of a PDB file, line by line.
#![tactic(auto)]

ghost use Rattle.std.specs.Prelude.{◌≡◌, ◌+◌, ◌*◌, ◌-◌, ◌<◌, ◌≤◌, length};
ghost use Rattle.pdb_fields.specs.Numbers.{whole, thousandths};
ghost use Rattle.pdb_records.specs.Records.{line_kind, role_of, serial_of, residue_of, residue_columns, bits_of, segment_of, atom_of, of_kind};

#[derive(Clone, Copy, PartialEq, Eq)]
pub enum Kind {
    Atom,
    Helix,
    Sheet,
    Model,
    Endmdl,
    Other,
}

#[derive(Clone, Copy)]
pub struct AtomLine {
    pub serial: u64,
    pub role: u8,
    pub chain: u8,
    pub name: u64,
    pub x: u64,
    pub y: u64,
    pub z: u64,
}

#[derive(Clone, Copy)]
pub struct SegmentLine {
    pub kind: u8,
    pub start: u64,
    pub end: u64,
}

#[derive(Clone, Copy)]
pub enum Record {
    Skipped,
    Short,
    BadNumber,
    AnAtom(AtomLine),
    ASegment(SegmentLine),
}

#[tactic(auto, unfolding(crate::specs::Records::line_kind))]
pub fn kind_of(l: &[u8]) -> Kind
    ensures { result ≡ line_kind l.now }
{
    if pdb_lines::is_at(l, 0, b"ATOM  ") {
        return Kind::Atom;
    }
    if pdb_lines::is_at(l, 0, b"HELIX ") {
        return Kind::Helix;
    }
    if pdb_lines::is_at(l, 0, b"SHEET ") {
        return Kind::Sheet;
    }
    if pdb_lines::is_at(l, 0, b"MODEL ") {
        return Kind::Model;
    }
    if pdb_lines::is_at(l, 0, b"ENDMDL") {
        return Kind::Endmdl;
    }
    Kind::Other
}

#[tactic(auto, unfolding(crate::specs::Records::role_of))]
fn role_of(l: &[u8]) -> u8
    requires { 16 ≤ length l.now }
    ensures { result ≡ role_of l.now }
{
    if pdb_lines::is_at(l, 12, b" CA ") {
        return 1;
    }
    if pdb_lines::is_at(l, 12, b" O  ") {
        return 2;
    }
    0
}

fn serial_in(l: &[u8]) -> Option<u64>
    requires { length l.now ≤ 8 }
    ensures { result ≡ serial_of (whole l.now) }
{
    let n = pdb_fields::whole_in(l)?;
    if n.minus {
        return None;
    }
    Some(n.size as u64)
}

fn coordinate_in(l: &[u8]) -> Option<u64>
    requires { length l.now ≤ 8 }
    ensures { result ≡ bits_of (thousandths l.now) }
{
    let n = pdb_fields::thousandths_in(l)?;
    Some(coordinates::coordinate_bits(n.minus, n.size))
}

fn residue_in(l: &[u8], chain: u8, icode: u8) -> Option<u64>
    requires { length l.now ≤ 8 }
    ensures { result ≡ residue_of chain (whole l.now) icode }
{
    let n = pdb_fields::whole_in(l)?;
    let c = (chain as u64) * 8589934592;
    if n.minus {
        return Some((c + (4294967296 - (n.size as u64))) * 256 + (icode as u64));
    }
    Some((c + (4294967296 + (n.size as u64))) * 256 + (icode as u64))
}

// The residue whose chain letter is in column `chain`, counted from 1, its number in the four from `number` on, its insertion code in the next.
fn residue_at(l: &[u8], chain: usize, number: usize) -> Option<u64>
    requires { (0 < chain) × (chain ≤ length l.now) × (0 < number) × (number + 4 ≤ length l.now) }
    ensures { result ≡ residue_columns chain number l.now }
{
    residue_in(&l[number - 1..number + 3], l[chain - 1], l[number + 3])
}

#[tactic(auto, unfolding(crate::specs::Records::atom_of))]
fn atom_of(l: &[u8]) -> Record
    ensures { result ≡ atom_of l.now }
{
    if l.len() < 54 {
        return Record::Short;
    }
    let Some(serial) = serial_in(&l[6..11]) else {
        return Record::BadNumber;
    };
    let Some(name) = residue_at(l, 22, 23) else {
        return Record::BadNumber;
    };
    let Some(x) = coordinate_in(&l[30..38]) else {
        return Record::BadNumber;
    };
    let Some(y) = coordinate_in(&l[38..46]) else {
        return Record::BadNumber;
    };
    let Some(z) = coordinate_in(&l[46..54]) else {
        return Record::BadNumber;
    };
    Record::AnAtom(AtomLine {
        serial,
        role: role_of(l),
        chain: l[21],
        name,
        x,
        y,
        z,
    })
}

// A HELIX or SHEET line; the columns are those of `residue_at`, for its first residue and for its last.
#[tactic(auto, unfolding(crate::specs::Records::segment_of))]
fn segment_of(
    l: &[u8],
    kind: u8,
    chain: usize,
    number: usize,
    chain2: usize,
    number2: usize,
) -> Record
    requires { (0 < chain) × (chain ≤ 38) × (0 < number) × (number ≤ 34) × (0 < chain2) × (chain2 ≤ 38) × (0 < number2) × (number2 ≤ 34) }
    ensures { result ≡ segment_of kind chain number chain2 number2 l.now }
{
    if l.len() < 38 {
        return Record::Short;
    }
    let Some(start) = residue_at(l, chain, number) else {
        return Record::BadNumber;
    };
    let Some(end) = residue_at(l, chain2, number2) else {
        return Record::BadNumber;
    };
    Record::ASegment(SegmentLine { kind, start, end })
}

#[tactic(auto, unfolding(crate::specs::Records::of_kind))]
pub fn record_of(k: Kind, l: &[u8]) -> Record
    ensures { result ≡ of_kind k l.now }
{
    match k {
        Kind::Atom => atom_of(l),
        Kind::Helix => segment_of(l, 1, 20, 22, 32, 34),
        Kind::Sheet => segment_of(l, 2, 22, 23, 33, 34),
        _ => Record::Skipped,
    }
}
