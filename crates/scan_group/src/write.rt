// Writing the pairs of a walk call to the lent list, once every chain was tested and there is room for them.
ghost use Rattle.std.specs.Prelude.{◌≡◌, ◌*◌, length};
ghost use Rattle.model.specs.Memory.{listed};
ghost use Rattle.scan_group.specs.Chains.{linked, group_linked};
ghost use Rattle.scan_group.specs.Written.{written, Writable};

use crate::lent::Group;
use memory::entry::{key_of, link_of, value_of};

// The pairs of one chain, at the front of the list; answers how many places they take.
pub fn write_chain(head: u32, entries: &[u32], list: &mut [u32]) -> usize
    requires { Writable list.old (linked entries.now head) }
    ensures list_after { list.new ≡ written entries.now list.old (linked entries.now head) }
    ensures value { result ≡ length (listed (linked entries.now head)) * 2 }
{
    let mut at = head;
    let mut to = 0;
    while at != 0 {
        list[to] = key_of(entries, at);
        list[to + 1] = value_of(entries, at);
        to += 2;
        at = link_of(entries, at);
    }
    to
}

impl Group<'_> {
    // The pairs of the whole group: the smaller table's chain, then the larger one's.
    pub fn write(self, list: &mut [u32])
        requires { Writable list.old (group_linked self) }
        ensures { list.new ≡ written self.entry.entries.fields.now list.old (group_linked self.entry) }
    {
        let entries = self.entries.fields;
        let mut to = write_chain(self.small.head, entries, list);
        for b in self.larger() {
            to += write_chain(self.large.head(b), entries, &mut list[to..]);
        }
    }
}
