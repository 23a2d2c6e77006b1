//! What a regex shares with its clones and its caches.

ghost use Rattle.std.specs.Prelude.{◌≡◌, IfOk};
ghost use Rattle.rx_engine.specs.Engines.{IsEngine};
ghost use Rattle.regex_cursor.specs.Cores.{IsCore};

use super::config::Config;
use super::dense::state_count;
use rx_chunk::pikevm::PikeVM;
use rx_dfa::Alphabet;
use rx_program::Program;
use std::alloc::{AllocError, Global};
use std::marker::Model;

/// What a regex shares with its clones and its caches: the PikeVM, which can do any search, the
/// automaton of its program, and its settings.
#[derive(Debug, Drop)]
pub(super) struct Core {
    vm: PikeVM,
    dfa: Alphabet,
    config: Config,
    // The number of states of the program and of the automata of its sets.
    states: usize,
}

impl Model for Core {
    ghost use Rattle.regex_cursor.specs.Cores.{CoreView, IsCore};

    ghost Value = { CoreView };

    ghost view = { λ c. record { vm = c.vm; dfa = c.dfa; settings = c.config } };

    ghost invariant = { λ c. IsCore (record { vm = c.vm; dfa = c.dfa; settings = c.config }) };
}

impl Core {
    /// Returns a PikeVM, the automaton of its program, and the settings.
    pub(super) fn new(alloc: Global, vm: PikeVM, config: Config) -> Result<Core, AllocError>
        ensures vm { IfOk result (λ core. core.vm ≡ vm) }
        ensures settings { IfOk result (λ core. core.settings ≡ config) }
    {
        let capacity = config.get_hybrid_cache_capacity();
        let dfa = Alphabet::new(alloc, vm.program(), vm.utf8_empty(), capacity)?;
        let states = state_count(vm.program());
        Ok(Core {
            vm,
            dfa,
            config,
            states,
        })
    }

    /// Returns the PikeVM, which can do any search.
    pub(super) fn vm(&self) -> &PikeVM
        ensures vm { result.now ≡ self.now.vm }
        ensures engine { IsEngine self.now.vm }
    {
        &self.vm
    }

    /// Returns the automaton's alphabet.
    pub(super) fn dfa(&self) -> &Alphabet
        ensures dfa { result.now ≡ self.now.dfa }
        ensures core { IsCore self.now }
    {
        &self.dfa
    }

    /// Returns the settings.
    pub(super) fn config(&self) -> &Config
        ensures { result.now ≡ self.now.settings }
    {
        &self.config
    }

    /// Returns the program that both search for.
    pub(super) fn program(&self) -> &Program
        ensures { result.now ≡ self.now.vm.program }
    {
        self.vm.program()
    }

    /// Returns the number of states of the program and of the automata of its sets.
    pub(super) fn states(&self) -> usize {
        self.states
    }
}
