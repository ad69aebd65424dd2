// The answers to requests of one of two parties, to build in its shares and to plan with its records, sent to a sink. The calls are those that C links; what is
// lent to them holds the patterns of the protocol.
#![tactic(auto)]

ghost use Rattle.std.specs.Prelude.{◌≡◌, ◌+◌, ◌≤◌, length, IfSome};
ghost use Rattle.lists.specs.Put.{put};
ghost use Rattle.party_replies.specs.Bytes.{numbers_at, shares_for, job_at};
ghost use Rattle.stream.specs.Buffers.{lengths};
ghost use Rattle.stream.specs.Requests.{Within};

use numbers::u32_at;
use stream::buffers::Buffers;
use stream::requests::{Lengths, Request};
use stream::sink::Sink;

// The answer to a request of a party that is neither 0 nor 1, or whose bytes end before its records do, is the one word FFFFFFFF.
fn refuse(s: &mut Sink) {
    s.send(&[0xffff_ffffu32]);
}

// Where the job begins in a request's bytes, behind the records, whose size stands at a place; none where the bytes end before the records do.
fn job_at(b: &[u8], at: usize) -> Option<usize>
    requires { at ≤ 96 }
    ensures place { result ≡ job_at b.now at }
    ensures within { IfSome result (λ n. (at + 4 ≤ n) × (n ≤ length b.now)) }
{
    let front = at + 4;
    if b.len() < front {
        return None;
    }
    let m = u32_at(b, at);
    if b.len() - front < m {
        return None;
    }
    Some(front + m)
}

// A party's twelve numbers, which stand in the bytes from place `at` on, into the list from place `to` on.
fn get_numbers(b: &[u8], at: usize, n: &mut [usize], to: usize)
    requires { (at + 48 ≤ length b.now) × (to + 12 ≤ length n.old) }
    ensures { n.new ≡ put n.old to (numbers_at b.now at) }
{
    for i in 0..12 {
        n[to + i] = u32_at(b, at + i * 4);
    }
}

// The numbers of both parties' shares: those of the calling party k, and then the other's.
fn shares_for(b: &[u8], k: usize) -> [usize; 24]
    requires { (96 ≤ length b.now) × (k ≤ 1) }
    ensures { result ≡ shares_for b.now k }
{
    let mut n = [0usize; 24];
    get_numbers(b, 48 * k, &mut n, 0);
    get_numbers(b, 48 - 48 * k, &mut n, 12);
    n
}

// One party's build, with exactly the places that the request is lent: the whole buffers, of which both parties have shares. Its records end at place `at` of the
// bytes, where the job begins.
fn build(b: &[u8], k: usize, at: usize, own: &mut Buffers, lent: Lengths, s: &mut Sink)
    requires { Within lent (lengths own.old) × (k ≤ 1) × (100 ≤ at) × (at ≤ length b.now) }
{
    let shares = shares_for(b, k);
    let mut answer = [0u32; 4];
    own.fill(lent);
    ribbon_c::ribbon_build_share(
        &b[at..],
        &b[100..at],
        &shares,
        &mut own.positions[..lent.positions],
        &mut own.normals[..lent.normals],
        &mut own.tags[..lent.tags],
        &mut own.triangles[..lent.triangles],
        &mut own.tubes[..lent.tubes],
        &mut own.boxes[..lent.boxes],
        &mut own.words[..lent.words],
        &mut own.floats[..lent.floats],
        &mut answer,
    );
    s.send(&answer);
    own.send(lent, s);
}

// One party's plan, with the scratch that the request is lent.
fn plan(b: &[u8], k: usize, at: usize, own: &mut Buffers, lent: Lengths, s: &mut Sink)
    requires { Within lent (lengths own.old) × (4 ≤ at) × (at ≤ length b.now) }
{
    let mut answer = [0u32; 9];
    own.fill_scratch(lent);
    ribbon_c::ribbon_plan_records(
        &b[at..],
        &b[4..at],
        k,
        &mut own.words[..lent.words],
        &mut own.floats[..lent.floats],
        &mut answer,
    );
    s.send(&answer);
    own.send_scratch(lent, s);
}

// One request, of call 7 or 8, whose bytes are at hand.
pub fn answer(r: Request, b: &[u8], own: &mut Buffers, s: &mut Sink)
    requires { Within r.lent (lengths own.old) }
{
    if r.call == 8 {
        match job_at(b, 0) {
            Some(at) => plan(b, r.k, at, own, r.lent, s),
            None => refuse(s),
        }
    } else {
        match job_at(b, 96) {
            Some(at) if r.k <= 1 => build(b, r.k, at, own, r.lent, s),
            _ => refuse(s),
        }
    }
}
