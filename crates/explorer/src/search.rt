//! The search for the ways of a script: depth first, in the order of words.
ghost use Rattle.std.specs.Prelude.{◌≡◌, ◌≤◌, ◌++◌, ◌∷◌, ◌&&◌, ◌||◌, [], Some, None, IfOk, if◌then◌else◌, length, nat_le};
ghost use Rattle.handler_script.specs.Valid.{IsValid};
ghost use Rattle.ipdl_base.specs.Sound.{IsSound};
ghost use Rattle.ipdl_base.specs.declared.kinds.Side.{Side as OfSide};
ghost use Rattle.script_steps.specs.Turns.{at_rest};
ghost use Rattle.world_core.specs.Options.{AreOptionsAt};
ghost use Rattle.world_core.specs.Worlds.{most_events};
ghost use Rattle.explorations.specs.Explorations.{IsExplored, most_states};
ghost use Rattle.explorations.specs.Seen.{exploration_seen};
ghost use Rattle.explorer.specs.Offers.{following};
ghost use Rattle.explorer.specs.declared.letters.Offer.TheVariants as offer;
ghost use Rattle.explorer.specs.Searching.{AreLike, Arrives, Goes, IsArriving, IsFinished, IsPoppedTo, IsSearching, MayEnter, Offers, found_in, options_in, quiet_in, setting_in};

use crate::letters::{Offer, first_letter, letter_after, offer_of};
use crate::runner::Runner;
use crate::states::{StateKey, States};
use explorations::{Exploration, Way};
use handler_script::Script;
use ipdl_base::{Schema, Side};
use schedules::Turn;
use std::alloc::{AllocError, Global};
use std::mem;
use world_core::SideOptions;

/// The greatest number of states that a search visits.
const MOST_STATES: usize = 100_000;

/// A state on the way of a search: its key, and what each side may do there.
#[derive(Clone, Copy, Drop)]
struct Spot {
    key: StateKey,
    parent: SideOptions,
    child: SideOptions,
}

impl Spot {
    // Returns what a side may do.
    fn options(&self, side: Side) -> SideOptions
        ensures { result ≡ options_in side self.now }
    {
        match side {
            Side::Parent => self.parent,
            Side::Child => self.child,
        }
    }

    // Returns whether no side has anything to do.
    fn is_quiet(&self) -> bool
        ensures { result ≡ quiet_in self.now }
    {
        !self.parent.acts && !self.parent.receives && !self.child.acts && !self.child.receives
    }
}

/// A search: where it is, and what it has found. It is at the state to which the current word leads.
#[derive(Drop)]
struct Search<'s> {
    runner: Runner<'s>,
    /// The greatest number of ways.
    most: u32,
    /// The current word.
    word: Vec<Turn>,
    /// The states before each letter of the current word.
    spots: Vec<Spot>,
    /// The current state.
    spot: Spot,
    /// The next letter to try, if one is left.
    next: Option<Turn>,
    states: States,
    found: Exploration,
}

/// Finds the ways of a script, at most so many of them (docs/explore.md). Fails only if memory runs out.
pub fn explore(
    alloc: Global,
    schema: &Schema,
    script: &Script,
    limit: u32,
    most: u32,
) -> Result<Exploration, AllocError>
    requires sound { IsSound schema.now }
    requires valid { IsValid schema.now script.now }
    requires small { limit ≤ most_events }
    ensures { IfOk result (λ e. IsExplored (record { schema = schema.entry.now; script = script.entry.now; stop = None; limit = limit }) most (exploration_seen e)) }
{
    let mut search = Search::begin(alloc, schema, script, limit, most)?;
    let found = search.find(alloc);
    drop(search);
    found
}

impl<'s> Search<'s> {
    // Creates a search at the empty word, which has found nothing.
    fn begin(
        alloc: Global,
        schema: &'s Schema,
        script: &'s Script,
        limit: u32,
        most: u32,
    ) -> Result<Search<'s>, AllocError>
        requires sound { IsSound schema.now }
        requires valid { IsValid schema.now script.now }
        requires small { limit ≤ most_events }
        ensures arriving { IfOk result IsArriving }
        ensures about { IfOk result (λ s. setting_in s ≡ record { schema = schema.entry.now; script = script.entry.now; stop = None; limit = limit }) }
        ensures most { IfOk result (λ s. s.most ≡ most) }
    {
        let runner = Runner::begin(alloc, schema, script, limit)?;
        let key = StateKey {
            parent: 0,
            child: 0,
        };
        let spot = spot_at(&runner, key);
        Ok(Search {
            runner,
            most,
            word: Vec::new(alloc),
            spots: Vec::new(alloc),
            spot,
            next: None,
            states: States::new(alloc),
            found: Exploration {
                ways: Vec::new(alloc),
                whole: true,
            },
        })
    }

    // Searches to the end.
    fn run(&mut self) -> Result<(), AllocError>
        requires { IsArriving self.old }
        ensures like { IfOk result (λ u. AreLike self.old self.new) }
        ensures finished { IfOk result (λ u. IsFinished self.new) }
    {
        let mut goes_on = self.arrive()?;
        while goes_on {
            goes_on = self.go_on()?;
        }
        Ok(())
    }

    // Searches to the end, and takes out what was found.
    fn find(&mut self, alloc: Global) -> Result<Exploration, AllocError>
        requires { IsArriving self.old }
        ensures { IfOk result (λ e. IsExplored (setting_in self.old) self.old.most (exploration_seen e)) }
    {
        self.run()?;
        Ok(self.take_found(alloc))
    }

    // Takes out what was found.
    fn take_found(&mut self, alloc: Global) -> Exploration
        ensures { result ≡ self.old.found }
    {
        let nothing = Exploration {
            ways: Vec::new(alloc),
            whole: true,
        };
        mem::replace(&mut self.found, nothing)
    }

    // Tries the next letter, or goes back by a letter. Returns whether the search goes on.
    fn go_on(&mut self) -> Result<bool, AllocError>
        requires { IsSearching self.old }
        ensures { IfOk result (λ goes. Goes self.old goes self.new) }
    {
        match self.next {
            None => Ok(self.go_back()),
            Some(turn) => self.try_letter(turn),
        }
    }

    // Goes back by a letter, if there is one.
    fn go_back(&mut self) -> bool
        requires searching { IsSearching self.old }
        requires none { self.old.next ≡ None }
        ensures { Goes self.old result self.new }
    {
        match self.word.pop() {
            None => false,
            Some(turn) => {
                self.go_back_before(turn);
                true
            }
        }
    }

    // Goes back to the state before a letter, which was the last of the word.
    fn go_back_before(&mut self, turn: Turn)
        requires { IsPoppedTo turn self.old }
        ensures like { AreLike self.old self.new }
        ensures searching { IsSearching self.new }
        ensures word { self.new.word ≡ self.old.word }
        ensures next { self.new.next ≡ following turn.only_deliver turn.side }
        ensures states { self.new.states ≡ self.old.states }
    {
        let Some(spot) = self.spots.pop() else {
            unreachable!();
        };
        self.runner.leave();
        self.spot = spot;
        self.next = letter_after(turn);
    }

    // Tries a letter at the current state.
    fn try_letter(&mut self, turn: Turn) -> Result<bool, AllocError>
        requires searching { IsSearching self.old }
        requires at { self.old.next ≡ Some turn }
        ensures { IfOk result (λ goes. Goes self.old goes self.new) }
    {
        let options = self.spot.options(turn.side);
        match offer_of(options, turn.only_deliver) {
            Offer::Nothing => {
                self.next = letter_after(turn);
                Ok(true)
            }
            Offer::Spent => self.add_spent(turn),
            Offer::Step(delivers) => self.try_step(turn, delivers),
        }
    }

    // Adds the way of a spent side.
    fn add_spent(&mut self, turn: Turn) -> Result<bool, AllocError>
        requires searching { IsSearching self.old }
        requires at { self.old.next ≡ Some turn }
        requires spent { Offers self.old turn offer.Spent }
        ensures { IfOk result (λ goes. Goes self.old goes self.new) }
    {
        if self.has_most_ways() {
            self.found.whole = false;
            return Ok(false);
        }
        let mut word = self.word.clone()?;
        word.push(turn)?;
        self.found.ways.push(Way {
            spent: Some(turn.side),
            word,
        })?;
        self.next = letter_after(turn);
        Ok(true)
    }

    // Tries a letter by which a side makes a step.
    fn try_step(&mut self, turn: Turn, delivers: bool) -> Result<bool, AllocError>
        requires searching { IsSearching self.old }
        requires at { self.old.next ≡ Some turn }
        requires steps { Offers self.old turn (offer.Step delivers) }
        ensures { IfOk result (λ goes. Goes self.old goes self.new) }
    {
        let key = self.states.key_after(self.spot.key, turn.side, delivers)?;
        if self.states.has(key) {
            self.next = letter_after(turn);
            Ok(true)
        } else {
            self.enter(turn, key)
        }
    }

    // Makes a turn to a state that was not met.
    fn enter(&mut self, turn: Turn, key: StateKey) -> Result<bool, AllocError>
        requires searching { IsSearching self.old }
        requires at { self.old.next ≡ Some turn }
        requires may { MayEnter self.old turn key }
        ensures { IfOk result (λ goes. Goes self.old goes self.new) }
    {
        self.runner.go_on(self.word.as_slice(), turn)?;
        self.spots.push(self.spot)?;
        self.word.push(turn)?;
        self.spot = spot_at(&self.runner, key);
        self.arrive()
    }

    // Adds the current state, which was not met, unless there would be too many states or ways.
    fn arrive(&mut self) -> Result<bool, AllocError>
        requires { IsArriving self.old }
        ensures { IfOk result (λ goes. Arrives self.old goes self.new) }
    {
        let quiet = self.spot.is_quiet();
        if self.is_full(quiet) {
            self.found.whole = false;
            return Ok(false);
        }
        self.states.add(self.spot.key)?;
        self.add_rest(quiet)?;
        self.next = Some(first_letter());
        Ok(true)
    }

    // Returns whether there is no room for a state, in which nothing is left to do if it is quiet.
    fn is_full(&self, quiet: bool) -> bool
        ensures { result ≡ (nat_le most_states (length self.now.states.met.keys) || (quiet && nat_le self.now.most (length self.now.found.ways.items))) }
    {
        self.states.count() >= MOST_STATES || (quiet && self.has_most_ways())
    }

    // Adds the way of a state in which nothing is left to do, if it is quiet.
    fn add_rest(&mut self, quiet: bool) -> Result<(), AllocError>
        ensures same { IfOk result (λ u. self.new ≡ record self.old { found = self.new.found }) }
        ensures whole { IfOk result (λ u. self.new.found.whole ≡ self.old.found.whole) }
        ensures added { IfOk result (λ u. found_in self.new ≡ (if quiet then found_in self.old ++ record { ending = at_rest; word = self.old.word.items } ∷ [] else found_in self.old)) }
    {
        if !quiet {
            return Ok(());
        }
        let word = self.word.clone()?;
        self.found.ways.push(Way { spent: None, word })?;
        Ok(())
    }

    // Returns whether there are as many ways as there may be.
    fn has_most_ways(&self) -> bool
        ensures { result ≡ nat_le self.now.most (length self.now.found.ways.items) }
    {
        self.found.ways.len() >= self.most as usize
    }
}

// Returns the state where a runner is, with its key.
fn spot_at(runner: &Runner<'_>, key: StateKey) -> Spot
    ensures key { result.key ≡ key }
    ensures options { (side : OfSide) → AreOptionsAt runner.now.world side (options_in side result) }
{
    Spot {
        key,
        parent: runner.options(Side::Parent),
        child: runner.options(Side::Child),
    }
}
