// The first pass: each chain is followed from its head until 0, a number out of range, an entry met before, or a key out of its
// bucket, and cut there. Each entry that is met is marked. A link is read before it is written: only the last entry met on a
// chain is linked anew.
ghost use Rattle.std.specs.Prelude.{◌≡◌, ◌≤◌, length, None};
ghost use Rattle.model.specs.Repair.{first_or0};
ghost use Rattle.verify.specs.Checked.{last_of};
ghost use Rattle.repair_passes.specs.Passes.{Work, Lent, Tabled, meets, met_by_marks, mark_all, cut, cut_up_to};
ghost use Rattle.repair_passes.specs.Passes.Work.{work};

use crate::marks::{mark_of, set_mark};
use memory::entry::{key_of, link_of, set_link};
use memory::state::bucket_index;

// Whether a number is an entry that is met here.
#[tactic(auto, using(crate::proofs::Cutting::meets_tests))]
fn is_met(entries: &[u32], marks: &[u8], capacity: u32, size: u32, b: usize, at: u32) -> bool
    requires { Lent capacity size (length entries.now) (length marks.now) }
    ensures { result ≡ meets entries.now capacity size b marks.now at }
{
    at != 0
        && at <= capacity
        && mark_of(marks, at) == 0
        && bucket_index(key_of(entries, at), size) == b
}

// Marks the entries met on a chain, and answers the last of them.
fn follow(
    entries: &[u32],
    marks: &mut [u8],
    capacity: u32,
    size: u32,
    b: usize,
    head: u32,
) -> Option<u32>
    requires { Lent capacity size (length entries.now) (length marks.old) }
    ensures value { result ≡ last_of None (met_by_marks entries.now capacity size b capacity marks.old head) }
    ensures marks_after { marks.new
        ≡ mark_all marks.old (met_by_marks entries.now capacity size b capacity marks.old head) }
{
    let mut at = head;
    let mut last = None;
    for _ in 0..capacity {
        if !is_met(entries, marks, capacity, size, b, at) {
            return last;
        }
        set_mark(marks, at, 1);
        last = Some(at);
        at = link_of(entries, at);
    }
    last
}

// Cuts a chain behind the last entry met, and answers its head.
fn cut_chain(
    entries: &mut [u32],
    marks: &mut [u8],
    capacity: u32,
    size: u32,
    b: usize,
    head: u32,
) -> u32
    requires { Lent capacity size (length entries.old) (length marks.old) }
    ensures value { result ≡ first_or0 (met_by_marks entries.old capacity size b capacity marks.old head) }
    ensures entries_after { entries.new
        ≡ cut entries.old (met_by_marks entries.old capacity size b capacity marks.old head) }
    ensures marks_after { marks.new
        ≡ mark_all marks.old (met_by_marks entries.old capacity size b capacity marks.old head) }
{
    let Some(last) = follow(entries, marks, capacity, size, b, head) else {
        return 0;
    };
    set_link(entries, last, 0);
    head
}

// The chains of one table, upwards.
pub fn cut_table(
    buckets: &mut [u32],
    entries: &mut [u32],
    marks: &mut [u8],
    capacity: u32,
    size: u32,
)
    requires { Tabled capacity size (length buckets.old) (length entries.old) (length marks.old) }
    ensures { work buckets.new entries.new marks.new
        ≡ cut_up_to capacity size size (work buckets.old entries.old marks.old) }
{
    for (b, head) in buckets[..size as usize].iter_mut().enumerate() {
        *head = cut_chain(entries, marks, capacity, size, b, *head);
    }
}
