//! The actions of main and of handlers.
ghost use Rattle.std.specs.Prelude.{◌≡◌, ◌<◌, ℤ, true, Some, None, option_map};
ghost use Rattle.channel_model.specs.Events as event;
ghost use Rattle.handler_script.specs.Valid.{answers_handled};
ghost use Rattle.handler_script.specs.ValueOf.{id_of, values_of};
ghost use Rattle.script_runs.specs.Allowed.{IsAllowed};
ghost use Rattle.script_steps.specs.NextEvent.{event_of};

use super::Half;
use crate::answers::StepAnswer;
use channel_core::{KeepAnswer, NamedAnswer, SendAnswer};
use handler_script::{Action, Terms, Who};
use ipdl_base::Name;

impl<'s> Half<'s> {
    ghost use Rattle.world_core.specs.CountsSteps.{with_act, with_answer};
    ghost use Rattle.world_core.specs.NextSteps.{EventGives, HandledGives, HasOwn, IsOnTop, context_in, counting_of};

    // Does an action of the innermost handler, or of main if no handler runs.
    pub(crate) fn act(&mut self, action: &Action) -> StepAnswer
        ghost seq: { ℤ }
        requires own { answers_handled action.now ≡ true → HasOwn self.old seq }
        requires on_top { IsOnTop self.old }
        requires allowed { IsAllowed self.old.end.schema self.old.end.end (event_of (context_in self.old) seq action.now) }
        requires few { self.old.end.end.sent < 268435456 }
        requires room { self.old.counts.events < 4294967295 }
        ensures { EventGives self.old (event_of (context_in self.old) seq action.now)
            (counting_of self.old (event_of (context_in self.old) seq action.now)) result self.new }
    {
        match action {
            Action::Send {
                who,
                number,
                values,
            } => self.send(who, *number, values, None),
            Action::New {
                name,
                who,
                number,
                values,
            } => self.send(who, *number, values, Some(name)),
            Action::Let { name, who } => self.name_actor(name, who),
            Action::Close => self.close(),
            Action::Die => self.die(),
            Action::ResolveNamed {
                name,
                number,
                values,
            } => self.resolve_named(name, *number, values),
            Action::RejectNamed { name, number } => self.reject_named(name, *number),
            Action::Resolve { values } => self.resolve(values),
            Action::Reject => self.reject(),
            Action::Keep { name } => self.keep(name),
        }
    }

    // Sends a request, and names the actor that it makes.
    fn send(&mut self, who: &Who, number: u32, terms: &Terms, name: Option<&Name>) -> StepAnswer
        requires on_top { IsOnTop self.old }
        requires allowed { IsAllowed self.old.end.schema self.old.end.end
            (event.send (id_of (context_in self.old) who.now) number (values_of (context_in self.old) terms.now)
            (option_map (λ n. n.now) name)) }
        requires few { self.old.end.end.sent < 268435456 }
        requires room { self.old.counts.events < 4294967295 }
        ensures { EventGives self.old (event.send (id_of (context_in self.old) who.now) number
            (values_of (context_in self.old) terms.now) (option_map (λ n. n.now) name.entry)) with_act result self.new }
    {
        let route = self.id_of(who);
        let Ok(values) = self.values_of(terms) else {
            return StepAnswer::NoMemory;
        };
        match self.end.send(route, number, &values, name) {
            SendAnswer::NoMemory => StepAnswer::NoMemory,
            SendAnswer::Sent { .. } | SendAnswer::Refused(_) => {
                self.counts.count_act();
                StepAnswer::Did
            }
        }
    }

    // Names an actor.
    fn name_actor(&mut self, name: &Name, who: &Who) -> StepAnswer
        requires on_top { IsOnTop self.old }
        requires allowed { IsAllowed self.old.end.schema self.old.end.end (event.name name.now (id_of (context_in self.old) who.now)) }
        requires room { self.old.counts.events < 4294967295 }
        ensures { EventGives self.old (event.name name.now (id_of (context_in self.old) who.now)) with_act result self.new }
    {
        let id = self.id_of(who);
        match self.end.name_actor(name, id) {
            Err(_) => StepAnswer::NoMemory,
            Ok(()) => {
                self.counts.count_act();
                StepAnswer::Did
            }
        }
    }

    // Answers the request of the innermost handler by values.
    fn resolve(&mut self, terms: &Terms) -> StepAnswer
        ghost seq: { ℤ }
        requires own { HasOwn self.old seq }
        requires on_top { IsOnTop self.old }
        requires allowed { IsAllowed self.old.end.schema self.old.end.end
            (event.answer (event.handled seq) (Some (values_of (context_in self.old) terms.now))) }
        requires room { self.old.counts.events < 4294967295 }
        ensures { HandledGives self.old seq (Some (values_of (context_in self.old) terms.now)) result self.new }
    {
        let Ok(values) = self.values_of(terms) else {
            return StepAnswer::NoMemory;
        };
        let Some(resolver) = self.counts.take_resolver() else {
            unreachable!();
        };
        let answer = self.end.resolve(resolver, &values);
        self.counts.count_answer(answer)
    }

    // Rejects the request of the innermost handler.
    fn reject(&mut self) -> StepAnswer
        ghost seq: { ℤ }
        requires own { HasOwn self.old seq }
        requires allowed { IsAllowed self.old.end.schema self.old.end.end (event.answer (event.handled seq) None) }
        requires room { self.old.counts.events < 4294967295 }
        ensures { HandledGives self.old seq None result self.new }
    {
        let Some(resolver) = self.counts.take_resolver() else {
            unreachable!();
        };
        let answer = self.end.reject(resolver);
        self.counts.count_answer(answer)
    }

    // Keeps the resolver of the innermost handler under a name.
    fn keep(&mut self, name: &Name) -> StepAnswer
        ghost seq: { ℤ }
        requires own { HasOwn self.old seq }
        requires allowed { IsAllowed self.old.end.schema self.old.end.end (event.keep seq name.now) }
        requires room { self.old.counts.events < 4294967295 }
        ensures { EventGives self.old (event.keep seq name.now) (with_answer None) result self.new }
    {
        let Some(resolver) = self.counts.take_resolver() else {
            unreachable!();
        };
        match self.end.keep(resolver, name) {
            KeepAnswer::Kept => {
                self.counts.count_act();
                StepAnswer::Did
            }
            KeepAnswer::NoMemory(resolver) => {
                self.counts.put_resolver(Some(resolver));
                StepAnswer::NoMemory
            }
        }
    }

    // Answers by values with the resolver of a name.
    fn resolve_named(&mut self, name: &Name, number: u32, terms: &Terms) -> StepAnswer
        requires on_top { IsOnTop self.old }
        requires allowed { IsAllowed self.old.end.schema self.old.end.end
            (event.answer (event.kept name.now number) (Some (values_of (context_in self.old) terms.now))) }
        requires room { self.old.counts.events < 4294967295 }
        ensures { EventGives self.old (event.answer (event.kept name.now number) (Some (values_of (context_in self.old) terms.now))) with_act result self.new }
    {
        let Ok(values) = self.values_of(terms) else {
            return StepAnswer::NoMemory;
        };
        match self.end.resolve_named(name, number, &values) {
            NamedAnswer::NoMemory => StepAnswer::NoMemory,
            NamedAnswer::Sent | NamedAnswer::Refused(_) => {
                self.counts.count_act();
                StepAnswer::Did
            }
        }
    }

    // Rejects with the resolver of a name.
    fn reject_named(&mut self, name: &Name, number: u32) -> StepAnswer
        requires allowed { IsAllowed self.old.end.schema self.old.end.end (event.answer (event.kept name.now number) None) }
        requires room { self.old.counts.events < 4294967295 }
        ensures { EventGives self.old (event.answer (event.kept name.now number) None) with_act result self.new }
    {
        match self.end.reject_named(name, number) {
            NamedAnswer::NoMemory => StepAnswer::NoMemory,
            NamedAnswer::Sent | NamedAnswer::Refused(_) => {
                self.counts.count_act();
                StepAnswer::Did
            }
        }
    }
}
