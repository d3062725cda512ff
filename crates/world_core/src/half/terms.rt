//! The values and actors that the terms of a script represent.
ghost use Rattle.std.specs.Prelude.{◌≡◌, IfOk};
ghost use Rattle.ipdl_base.specs.Plain.{plain_values};
ghost use Rattle.handler_script.specs.ValueOf.{id_of, values_of};
ghost use Rattle.script_steps.specs.NextEvent.{actor_named};

use super::Half;
use channel_core::{End, Named};
use handler_script::{Terms, Who};
use ipdl_base::{Name, Values};
use script_parts::{ActorNames, TermScope};
use std::alloc::AllocError;

/// The id of an actor that never lives.
const NOBODY: i32 = -1;

/// The names of an end.
#[derive(Clone, Copy)]
struct EndNames<'a, 's> {
    end: &'a End<'s>,
}

impl<'a, 's> ActorNames for EndNames<'a, 's> {
    ghost held = { λ n name. actor_named n.end.now.end name };

    fn actor(&self, name: &Name) -> Option<i32> {
        match self.end.named(name) {
            Named::Actor(id) => Some(id),
            Named::Nothing | Named::Resolver(_) => None,
        }
    }
}

impl<'s> Half<'s> {
    ghost use Rattle.world_core.specs.NextSteps.{IsOnTop, context_in};

    // Returns the id of the actor that a term names.
    pub(crate) fn id_of(&self, who: &Who) -> i32
        requires { IsOnTop self.now }
        ensures { result ≡ id_of (context_in self.now) who.now }
    {
        let names = EndNames { end: &self.end };
        match self.counts.innermost() {
            None => {
                let given = Values::Nothing;
                let scope = TermScope {
                    this: NOBODY,
                    made: NOBODY,
                    given: &given,
                };
                scope.id_of(&names, who)
            }
            Some(running) => {
                let Some(handler) = self.end.running() else {
                    unreachable!();
                };
                let scope = TermScope {
                    this: handler.route,
                    made: running.made,
                    given: &running.given,
                };
                scope.id_of(&names, who)
            }
        }
    }

    // Returns the values that terms represent. Fails only if memory runs out.
    pub(crate) fn values_of(&self, terms: &Terms) -> Result<Values, AllocError>
        requires { IsOnTop self.now }
        ensures { IfOk result (λ vs. plain_values vs ≡ values_of (context_in self.now) terms.now) }
    {
        let names = EndNames { end: &self.end };
        match self.counts.innermost() {
            None => {
                let given = Values::Nothing;
                let scope = TermScope {
                    this: NOBODY,
                    made: NOBODY,
                    given: &given,
                };
                scope.values_of(self.alloc, &names, terms)
            }
            Some(running) => {
                let Some(handler) = self.end.running() else {
                    unreachable!();
                };
                let scope = TermScope {
                    this: handler.route,
                    made: running.made,
                    given: &running.given,
                };
                scope.values_of(self.alloc, &names, terms)
            }
        }
    }
}
