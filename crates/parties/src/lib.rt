// The calls of one of two parties on one structure (02 §5). Nothing is demanded of whoever calls them; what they promise, `BuildsShare` and `PlansRecords`,
// stands in party_promises/specs/Calls. Atoms, residues and chains are one shared job with no segments; each party has its own segment records.
#![tactic(auto)]

ghost use Rattle.std.specs.Prelude.{◌≡◌, false, ◌≤◌};
ghost use Rattle.protein.specs.Layout.{Whole};
ghost use Rattle.protein.specs.Job.{job_of, segments_of};
ghost use Rattle.protein.specs.Protein.{protein_of};
ghost use Rattle.tables.specs.Wants.{Chained};
ghost use Rattle.buffers.specs.Outs.{lends, held, holds};
ghost use Rattle.shares.specs.Shares.{Fits, share_of, with_share};
ghost use Rattle.room.specs.Room.{lent, buffers, scratch, scratch_past};
ghost use Rattle.promises.specs.Calls.{tubes_with, build_checks, outs_by};
ghost use Rattle.party_promises.specs.Calls.{BuildsShare, PlansRecords};

use buffers::Counts;
use job::Refusal;
use promises::Plan;
use protein::Head;
use shares::Shares;

// Checks 9 to 11, and then the mesh, in the caller's shares, which lie in their buffers. No other place is lent on.
fn build_within(
    b: &[u8],
    h: Head,
    q: &[u8],
    mine: Shares,
    positions: &mut [f32],
    normals: &mut [f32],
    tags: &mut [u32],
    triangles: &mut [u32],
    tubes: &mut [u32],
    boxes: &mut [f32],
    words: &mut [u32],
    floats: &mut [f32],
) -> Result<Counts, Refusal>
    requires { Whole b.now h × Chained (job_of b.now h) h.chains × ((segments_of q.now).count ≤ 65535)
        × Fits mine (lends positions normals tags triangles tubes boxes) }
    ensures { (result ≡ build_checks h (tubes_with b.now h q.now)
        (lent (buffers (share_of mine (held positions normals tags triangles tubes boxes)) words.old floats.old)))
        × (holds positions normals tags triangles tubes boxes ≡ with_share mine (held positions normals tags triangles tubes boxes)
        (outs_by result (protein_of b.now h) (tubes_with b.now h q.now)
        (share_of mine (held positions normals tags triangles tubes boxes))))
        × (scratch words.new floats.new ≡ scratch_past h (scratch words.old floats.old)) }
{
    let a0 = mine.positions.start;
    let a1 = mine.normals.start;
    let a2 = mine.tags.start;
    let a3 = mine.triangles.start;
    let a4 = mine.tubes.start;
    let a5 = mine.boxes.start;
    let e0 = a0 + mine.positions.len;
    let e1 = a1 + mine.normals.len;
    let e2 = a2 + mine.tags.len;
    let e3 = a3 + mine.triangles.len;
    let e4 = a4 + mine.tubes.len;
    let e5 = a5 + mine.boxes.len;
    ribbon::build_checked(
        b,
        h,
        q,
        &mut positions[a0..e0],
        &mut normals[a1..e1],
        &mut tags[a2..e2],
        &mut triangles[a3..e3],
        &mut tubes[a4..e4],
        &mut boxes[a5..e5],
        words,
        floats,
    )
}

// The whole mesh of a shared job with one party's records, in that party's shares, or one numbered refusal.
pub fn build_share(
    b: &[u8],
    q: &[u8],
    mine: Shares,
    other: Shares,
    positions: &mut [f32],
    normals: &mut [f32],
    tags: &mut [u32],
    triangles: &mut [u32],
    tubes: &mut [u32],
    boxes: &mut [f32],
    words: &mut [u32],
    floats: &mut [f32],
) -> Result<Counts, Refusal>
    ensures { BuildsShare b.now q.now mine other
        (buffers (held positions normals tags triangles tubes boxes) words.old floats.old) result
        (buffers (holds positions normals tags triangles tubes boxes) words.new floats.new) }
{
    let h = job::check_shared(b, q)?;
    if shares::is_bad_shares(
        mine,
        other,
        positions.len(),
        normals.len(),
        tags.len(),
        triangles.len(),
        tubes.len(),
        boxes.len(),
    ) {
        return Err(Refusal::BadShares);
    }
    build_within(
        b, h, q, mine, positions, normals, tags, triangles, tubes, boxes, words, floats,
    )
}

// Counts of a shared job's mesh with one party's records, and tube k's five words, all 0 if k is K or more. A plan needs no share.
pub fn plan_records(
    b: &[u8],
    q: &[u8],
    k: usize,
    words: &mut [u32],
    floats: &mut [f32],
) -> Result<Plan, Refusal>
    ensures { PlansRecords b.now q.now k (scratch words.old floats.old) result
        (scratch words.new floats.new) }
{
    let h = job::check_shared(b, q)?;
    ribbon::plan_checked(b, h, q, k, words, floats)
}
