//! Tests of the texts of rules.

use super::checks::check;
use ipdl_base::Rule;
use std::test::Fail;

/// Each rule with the line of its text.
const RULES: &[(Rule, &str)] = &[
    (Rule::BAD_TOKEN, "A1 bad token"),
    (Rule::SYNTAX_FAULT, "A2 syntax fault"),
    (Rule::FILE_NOT_FOUND, "A3 file not found"),
    (
        Rule::MISNAMED_PROTOCOL,
        "A4 protocol does not bear the name of its file",
    ),
    (Rule::TOO_LARGE, "A5 too large"),
    (Rule::UNKNOWN_TYPE, "B1 unknown type"),
    (Rule::AMBIGUOUS_TYPE, "B2 ambiguous type"),
    (Rule::UNDEFINED_TYPE, "B3 type is not defined"),
    (Rule::REPEATED_DECLARATION, "B4 repeated declaration"),
    (
        Rule::NULLABLE_NON_ACTOR,
        "B5 nullable on a type that is not an actor",
    ),
    (Rule::REPEATED_FIELD, "B6 repeated field"),
    (Rule::BAD_ATTRIBUTE, "B7 bad attribute"),
    (Rule::UNKNOWN_PROTOCOL, "B8 unknown protocol"),
    (
        Rule::MANAGER_DISAGREEMENT,
        "B9 manager and manages disagree",
    ),
    (Rule::TOO_MANY_MESSAGES, "B10 too many messages"),
    (
        Rule::PLAIN_SYNC_TO_CHILD,
        "B11 sync message of level not sent by the parent",
    ),
    (
        Rule::INSIDE_SYNC_NOT_SYNC,
        "B12 inside_sync message is not sync",
    ),
    (
        Rule::INSIDE_CPOW_TO_CHILD,
        "B13 inside_cpow message sent by the parent",
    ),
    (
        Rule::STRONGER_MESSAGE,
        "B14 message is stronger than its protocol",
    ),
    (
        Rule::STRONGER_PROTOCOL,
        "B15 protocol is stronger than its manager",
    ),
    (
        Rule::BAD_COMPRESS,
        "B16 compress on a message that is not plain async",
    ),
    (Rule::MANAGER_CYCLE, "B17 manager cycle"),
    (Rule::MISSING_CONSTRUCTOR, "B18 constructor is missing"),
    (Rule::MISSING_DESTRUCTOR, "B19 destructor is missing"),
    (
        Rule::UNMANAGED_CONSTRUCTOR,
        "B20 constructor of a protocol that is not managed",
    ),
    (Rule::REPEATED_NAME, "B21 repeated name"),
    (Rule::REPEATED_PARAMETER, "B22 repeated parameter"),
    (Rule::BAD_CONSTRUCTOR, "B23 bad constructor or destructor"),
    (
        Rule::BAD_LAZY_SEND,
        "B24 lazy send on a message that is not plain async",
    ),
    (Rule::UNLISTED_SYNC, "S1 sync message is not listed"),
    (Rule::LISTED_ASYNC, "S2 listed message is async"),
    (Rule::LISTED_ABSENT, "S3 listed message does not exist"),
    (Rule::NO_DESCRIPTION, "S4 section has no description"),
    (Rule::NOT_A_STATEMENT, "K1 not a statement"),
    (Rule::BLOCK_STRUCTURE, "K2 block structure"),
    (Rule::UNKNOWN_MESSAGE, "K3 unknown message"),
    (Rule::WRONG_DIRECTION, "K4 wrong direction"),
    (Rule::UNFIT_VALUES, "K5 values do not fit"),
    (Rule::NOT_ALLOWED_HERE, "K6 not allowed here"),
    (Rule::UNCARRIED_TYPE, "K7 type is not carried"),
    (Rule::NOT_A_TOP_PROTOCOL, "K8 not a top protocol"),
    (Rule::UNREADABLE_SCRIPT, "K9 script too large or absent"),
    (Rule::LARGE_PAYLOAD, "F1 payload too large"),
    (Rule::UNKNOWN_FRAME_TYPE, "F2 unknown type"),
    (Rule::BAD_FLAGS, "F3 bad flags"),
    (Rule::BAD_FIELD, "F4 bad field"),
    (Rule::BAD_TAG, "F5 bad tag"),
    (Rule::BAD_TEXT, "F6 bad text"),
    (Rule::SHORT_PAYLOAD, "F7 payload too short"),
    (Rule::LONG_PAYLOAD, "F8 payload too long"),
    (Rule::BAD_VALUE, "F9 bad value"),
    (Rule::NOT_ONE_FRAME, "F10 not one frame"),
    (Rule::UNSENT_REQUEST, "F11 wrong direction"),
    (Rule::WRONG_NUMBER, "F12 wrong number"),
    (Rule::WRONG_ID, "F13 wrong id"),
    (Rule::BAD_PADDING, "F14 bad padding"),
    (Rule::BAD_MARK, "F15 bad mark"),
    (Rule::EARLY_END, "C1 ends too early"),
    (Rule::NO_SUCH_STEP, "C2 no such step"),
];

#[test]
fn rules(rt: HostRuntime) -> Result<(), Fail> {
    for (rule, line) in RULES {
        let found = rule.to_string(rt.alloc())?;
        check(&rt, line, found.as_str(), line);
    }
    Ok(())
}
