//! Tests of the names of an end.
use super::checks::check;
use super::schemas::{ASK, TOP};
use end_parts::{KeptResolver, NameContent, NameEntries, Named, shown_id};
use ipdl_base::Name;
use std::alloc::{AllocError, Global};
use std::test::Fail;

fn named_text(named: Named) -> &'static str {
    match named {
        Named::Nothing => "nothing",
        Named::Actor(_) => "actor",
        Named::Resolver(_) => "resolver",
    }
}

/// Binds a name to the actor 6.
fn hold_actor(alloc: Global, names: &mut NameEntries, name: &Name) -> Result<(), AllocError> {
    names.reserve()?;
    let copy = name.copy(alloc)?;
    names.hold_actor(copy, 6);
    Ok(())
}

/// Binds a name to a resolver.
fn hold_resolver(alloc: Global, names: &mut NameEntries, name: &Name) -> Result<(), AllocError> {
    names.reserve()?;
    let copy = name.copy(alloc)?;
    names.hold(copy, NameContent::Resolver(KeptResolver::new(-1, TOP, ASK)));
    Ok(())
}

/// Appends what a resolver is, and what the answer by it repeats.
fn push_resolver(log: &mut String) -> Result<(), AllocError> {
    let resolver = KeptResolver::new(-1, TOP, ASK);
    let (seq, route, number) = (resolver.seq(), resolver.route(), resolver.number());
    let transaction = resolver.answered().transaction;
    write!(log, "{seq} {route} {number} {transaction}")
}

/// Whether a name has a resolver whose answer repeats what that of this one does.
fn holds_resolver(names: &NameEntries, name: &Name) -> bool {
    let wanted = KeptResolver::new(-1, TOP, ASK).answered();
    names.resolver_held(name) == Some(wanted)
}

/// Returns what two names are bound to, as words.
fn named_texts(names: &NameEntries, kid: &Name, answer: &Name) -> (&'static str, &'static str) {
    (
        named_text(names.named(kid)),
        named_text(names.named(answer)),
    )
}

/// Two names, one of an actor and one of a resolver.
fn tell_names(
    alloc: Global,
    kid: &Name,
    answer: &Name,
    names: &mut NameEntries,
    log: &mut String,
) -> Result<(), AllocError> {
    hold_actor(alloc, names, kid)?;
    hold_resolver(alloc, names, answer)?;
    let (held, kept) = named_texts(names, kid, answer);
    let same = holds_resolver(names, answer);
    names.drop_resolvers();
    let dropped = named_text(names.named(answer));
    names.remove(kid);
    let removed = named_text(names.named(kid));
    write!(log, ", {held} {kept} {same}, {dropped} {removed}")
}

/// Appends the ids that the lines of names show.
fn push_ids(log: &mut String) -> Result<(), AllocError> {
    write!(log, ", {} {}", shown_id(6), shown_id(-2))
}

fn tell_with_kid(alloc: Global, kid: &Name, log: &mut String) -> Result<(), AllocError> {
    let answer = Name::from_slice(alloc, b"answer")?;
    let mut names = NameEntries::new(alloc);
    let done = tell_names(alloc, kid, &answer, &mut names, log);
    drop(names);
    drop(answer);
    done
}

/// Appends the results of two names and a resolver.
fn tell(alloc: Global, log: &mut String) -> Result<(), AllocError> {
    push_resolver(log)?;
    let kid = Name::from_slice(alloc, b"kid")?;
    let done = tell_with_kid(alloc, &kid, log);
    drop(kid);
    done?;
    push_ids(log)
}

#[test]
fn names_of_an_end(rt: HostRuntime) -> Result<(), Fail> {
    let mut found = String::new(rt.alloc());
    tell(rt.alloc(), &mut found)?;
    check(
        &rt,
        found.as_str(),
        "-1 2147483647 65538 0, actor resolver true, nothing nothing, 6 0",
    );
    Ok(())
}
