//! The groups of a match in a line, as C gets them.
ghost use Rattle.std.specs.Prelude.{◌≡◌, map};
ghost use Rattle.rope_search_c.specs.Groups.{CopiesGroups};
ghost use Rattle.rope_search_c.specs.Groups as told;
ghost use Rattle.rope_search_c.specs.Reading.{with_front};

use crate::counting::CountingSession;
use crate::matches::Group;
use rope_search::Groups;

/// Returns a group as C gets it.
fn group_in(line: usize, group: Option<(usize, usize)>) -> Group
    ensures { result ≡ told.group_in line group }
{
    match group {
        None => Group {
            found: false,
            line,
            start: 0,
            stop: 0,
        },
        Some((start, stop)) => Group {
            found: true,
            line,
            start,
            stop,
        },
    }
}

/// Writes the groups of a match in a line to the start of a buffer, as many as fit.
fn put_groups(line: usize, groups: &Groups, out: &mut [Group])
    ensures { out.new ≡ with_front (map (told.group_in line) groups.now) out.old }
{
    for k in 0..10 {
        if k < out.len() {
            out[k] = group_in(line, groups[k]);
        }
    }
}

impl CountingSession {
    /// Writes the groups 0 to 9 of a match of the chosen buffer's report to the start of a buffer,
    /// as many as fit, as `Session::groups_at` returns them. Returns 0, or why they are refused;
    /// `out` is then unchanged.
    pub(crate) fn groups_at(&mut self, line: usize, number: usize, out: &mut [Group]) -> u32
        ensures { CopiesGroups self.old line number result out.old out.new self.new }
    {
        match self.session.groups_at(&mut self.lines, line, number) {
            Ok(groups) => {
                put_groups(line, &groups, out);
                0
            }
            Err(fault) => u32::from(fault.rank()),
        }
    }
}
