//! Tables that searches look up steps in.

ghost use Rattle.std.specs.Prelude.{◌≡◌, ◌<◌, ◌≤◌, Bool, Some, false, length, slice_get, IfOk, IfErr};
ghost use Rattle.rx_dfa.specs.declared.states.AutomatonState.{AutomatonState};
ghost use Rattle.rx_dfa.specs.Alphabets.{column_count};
ghost use Rattle.rx_dfa.specs.Caches.{CacheView, GivesUpLate, HasFirst};
ghost use Rattle.rx_dfa.specs.Tables.{HasStepped, IsBeginning, IsLack, IsTable};

use crate::automaton::Automaton;
use crate::behind::Behind;
use crate::cache::Cache;
use crate::states::Starting;
use rx_util::MatchError;

/// The states and steps that a search uses: the known states by number, and the steps between them.
pub(crate) trait Table {
    // Whether all states and all steps are known.
    ghost is_whole: { Bool };

    // The known states and steps.
    ghost shown: { Self → CacheView };

    /// Returns the known states and steps.
    fn known(&self) -> &Cache
        ensures { result.now ≡ shown self.now };

    /// Returns the number of the state to which a column leads, or `None` if the search must quit.
    /// `at` is the offset for an error.
    fn step(
        &mut self,
        automaton: &Automaton,
        number: usize,
        column: usize,
        at: usize,
    ) -> Result<Option<usize>, MatchError>
        requires table { IsTable is_whole automaton.now (shown self.old) }
        requires number { number < length (shown self.old).states }
        requires column { column < column_count automaton.now.alphabet.now }
        ensures table { IsTable is_whole automaton.now (shown self.new) }
        ensures step { IfOk result (λ next. (x : AutomatonState)
            → slice_get (shown self.old).states number ≡ Some x
            → HasStepped automaton.now (shown self.new).states x column next) }
        ensures refused { IfErr result (IsLack is_whole at) }
        ensures late { IfErr result (GivesUpLate (shown self.new)) };

    /// Returns the number of the start state for how threads start and what precedes. `at` is the
    /// offset for an error.
    fn first(
        &mut self,
        automaton: &Automaton,
        starting: Starting,
        side: Behind,
        at: usize,
    ) -> Result<usize, MatchError>
        requires table { IsTable is_whole automaton.now (shown self.old) }
        requires begins { IsBeginning automaton.now starting side }
        ensures table { IsTable is_whole automaton.now (shown self.new) }
        ensures first { IfOk result (HasFirst (shown self.new).states starting side) }
        ensures begun { is_whole ≡ false → (shown self.new).cleared ≤ 1 }
        ensures refused { IfErr result (IsLack is_whole at) }
        ensures late { IfErr result (GivesUpLate (shown self.new)) };
}
