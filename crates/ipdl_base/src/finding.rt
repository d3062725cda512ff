//! Rules with their texts, and the findings and reports of what breaks them.
ghost use Rattle.std.specs.Prelude.{◌≡◌, ◌∷◌, ◌++◌, Some, codes};
ghost use Rattle.ipdl_base.specs.Rules.{rule_text, rule_name, rule_line};

use crate::items::Items;
use crate::name::Texts;
use std::fmt;

/// A place in a file. Lines and columns count from 1, in bytes; line 0 and column 0 mean the whole file.
#[derive(Clone, Copy, Debug, PartialEq, Eq, PartialOrd, Ord)]
pub struct Place {
    /// The number of the file: its index in the list of files that are read.
    pub file: u32,
    /// The line, from 1, or 0 for the whole file.
    pub line: u32,
    /// The column in bytes, from 1, or 0 for the whole file.
    pub column: u32,
}

/// A rule by its letter and its number, such as A1 or B21 (docs/formats.md, "Findings").
#[derive(Clone, Copy, Debug, PartialEq, Eq, PartialOrd, Ord)]
pub struct Rule {
    /// The letter, in ASCII.
    pub letter: u8,
    /// The number, from 1.
    pub number: u8,
}

impl Rule {
    /// A file has no tokens.
    pub const BAD_TOKEN: Rule = Rule {
        letter: b'A',
        number: 1,
    };

    /// A file with tokens has no tree, or a line of the sync list is not of its format.
    pub const SYNTAX_FAULT: Rule = Rule {
        letter: b'A',
        number: 2,
    };

    /// A named file does not exist.
    pub const FILE_NOT_FOUND: Rule = Rule {
        letter: b'A',
        number: 3,
    };

    /// The name of a protocol differs from that of its file.
    pub const MISNAMED_PROTOCOL: Rule = Rule {
        letter: b'A',
        number: 4,
    };

    /// A file is too large, or there are too many.
    pub const TOO_LARGE: Rule = Rule {
        letter: b'A',
        number: 5,
    };

    /// The name of a type finds nothing.
    pub const UNKNOWN_TYPE: Rule = Rule {
        letter: b'B',
        number: 1,
    };

    /// The name of a type finds two types or more.
    pub const AMBIGUOUS_TYPE: Rule = Rule {
        letter: b'B',
        number: 2,
    };

    /// A struct or a union has no finite derivation.
    pub const UNDEFINED_TYPE: Rule = Rule {
        letter: b'B',
        number: 3,
    };

    /// A declaration has the name of an earlier one or of a builtin.
    pub const REPEATED_DECLARATION: Rule = Rule {
        letter: b'B',
        number: 4,
    };

    /// `nullable` is on a base that is not an actor.
    pub const NULLABLE_NON_ACTOR: Rule = Rule {
        letter: b'B',
        number: 5,
    };

    /// A field has the name of an earlier field.
    pub const REPEATED_FIELD: Rule = Rule {
        letter: b'B',
        number: 6,
    };

    /// An attribute is repeated, or its value is not one of those allowed.
    pub const BAD_ATTRIBUTE: Rule = Rule {
        letter: b'B',
        number: 7,
    };

    /// The name of a manager or of a managed protocol finds no protocol.
    pub const UNKNOWN_PROTOCOL: Rule = Rule {
        letter: b'B',
        number: 8,
    };

    /// One of two protocols names the other, which does not name it in return.
    pub const MANAGER_DISAGREEMENT: Rule = Rule {
        letter: b'B',
        number: 9,
    };

    /// A protocol has too many messages.
    pub const TOO_MANY_MESSAGES: Rule = Rule {
        letter: b'B',
        number: 10,
    };

    /// A sync message of the lowest level may be sent by the parent.
    pub const PLAIN_SYNC_TO_CHILD: Rule = Rule {
        letter: b'B',
        number: 11,
    };

    /// A message of level `inside_sync` is async.
    pub const INSIDE_SYNC_NOT_SYNC: Rule = Rule {
        letter: b'B',
        number: 12,
    };

    /// A message of level `inside_cpow` may be sent by the parent.
    pub const INSIDE_CPOW_TO_CHILD: Rule = Rule {
        letter: b'B',
        number: 13,
    };

    /// A message does not convert to its protocol.
    pub const STRONGER_MESSAGE: Rule = Rule {
        letter: b'B',
        number: 14,
    };

    /// A protocol does not convert to a manager.
    pub const STRONGER_PROTOCOL: Rule = Rule {
        letter: b'B',
        number: 15,
    };

    /// A message that is not plain async compresses.
    pub const BAD_COMPRESS: Rule = Rule {
        letter: b'B',
        number: 16,
    };

    /// Managers lead from a protocol over another protocol back to the first.
    pub const MANAGER_CYCLE: Rule = Rule {
        letter: b'B',
        number: 17,
    };

    /// A managed protocol has no constructor.
    pub const MISSING_CONSTRUCTOR: Rule = Rule {
        letter: b'B',
        number: 18,
    };

    /// A protocol with a manager has no destructor.
    pub const MISSING_DESTRUCTOR: Rule = Rule {
        letter: b'B',
        number: 19,
    };

    /// A message has the name of a protocol that its protocol does not manage.
    pub const UNMANAGED_CONSTRUCTOR: Rule = Rule {
        letter: b'B',
        number: 20,
    };

    /// A name is repeated among managers, managed protocols or messages.
    pub const REPEATED_NAME: Rule = Rule {
        letter: b'B',
        number: 21,
    };

    /// A parameter or return has the name of an earlier parameter or return.
    pub const REPEATED_PARAMETER: Rule = Rule {
        letter: b'B',
        number: 22,
    };

    /// A constructor or destructor has an answer.
    pub const BAD_CONSTRUCTOR: Rule = Rule {
        letter: b'B',
        number: 23,
    };

    /// A message that is not plain async is lazy.
    pub const BAD_LAZY_SEND: Rule = Rule {
        letter: b'B',
        number: 24,
    };

    /// The sync list has no section for a sync message.
    pub const UNLISTED_SYNC: Rule = Rule {
        letter: b'S',
        number: 1,
    };

    /// A section names an async message.
    pub const LISTED_ASYNC: Rule = Rule {
        letter: b'S',
        number: 2,
    };

    /// A section names a message that does not exist.
    pub const LISTED_ABSENT: Rule = Rule {
        letter: b'S',
        number: 3,
    };

    /// A section has no description.
    pub const NO_DESCRIPTION: Rule = Rule {
        letter: b'S',
        number: 4,
    };

    /// A line of a script is not a statement.
    pub const NOT_A_STATEMENT: Rule = Rule {
        letter: b'K',
        number: 1,
    };

    /// A line is not where its block allows it.
    pub const BLOCK_STRUCTURE: Rule = Rule {
        letter: b'K',
        number: 2,
    };

    /// A statement names a message that does not exist.
    pub const UNKNOWN_MESSAGE: Rule = Rule {
        letter: b'K',
        number: 3,
    };

    /// A side cannot send or receive the message.
    pub const WRONG_DIRECTION: Rule = Rule {
        letter: b'K',
        number: 4,
    };

    /// The values do not have the types of the message.
    pub const UNFIT_VALUES: Rule = Rule {
        letter: b'K',
        number: 5,
    };

    /// A statement is not allowed in its block.
    pub const NOT_ALLOWED_HERE: Rule = Rule {
        letter: b'K',
        number: 6,
    };

    /// A message that is sent or handled cannot be carried.
    pub const UNCARRIED_TYPE: Rule = Rule {
        letter: b'K',
        number: 7,
    };

    /// The protocol of a script has a manager.
    pub const NOT_A_TOP_PROTOCOL: Rule = Rule {
        letter: b'K',
        number: 8,
    };

    /// The script does not exist, or it or one of its lines is too large.
    pub const UNREADABLE_SCRIPT: Rule = Rule {
        letter: b'K',
        number: 9,
    };

    /// A frame's payload is longer than its layout allows.
    pub const LARGE_PAYLOAD: Rule = Rule {
        letter: b'F',
        number: 1,
    };

    /// The type of a frame is that of no carried request or reply, and not that of a goodbye.
    pub const UNKNOWN_FRAME_TYPE: Rule = Rule {
        letter: b'F',
        number: 2,
    };

    /// The flags of a frame are not those of its type.
    pub const BAD_FLAGS: Rule = Rule {
        letter: b'F',
        number: 3,
    };

    /// The route, the number or the transaction of a frame is not allowed by its type.
    pub const BAD_FIELD: Rule = Rule {
        letter: b'F',
        number: 4,
    };

    /// A byte that chooses a form of a value, or the index of a union, is not one of those allowed.
    pub const BAD_TAG: Rule = Rule {
        letter: b'F',
        number: 5,
    };

    /// A text is not valid UTF-8.
    pub const BAD_TEXT: Rule = Rule {
        letter: b'F',
        number: 6,
    };

    /// A value needs more bytes than the payload has left.
    pub const SHORT_PAYLOAD: Rule = Rule {
        letter: b'F',
        number: 7,
    };

    /// Bytes are left after the last value.
    pub const LONG_PAYLOAD: Rule = Rule {
        letter: b'F',
        number: 8,
    };

    /// An actor, a new id or the reason of a fault is not one of those allowed there.
    pub const BAD_VALUE: Rule = Rule {
        letter: b'F',
        number: 9,
    };

    /// A packet is less than one frame, or more.
    pub const NOT_ONE_FRAME: Rule = Rule {
        letter: b'F',
        number: 10,
    };

    /// The other side does not send this request.
    pub const UNSENT_REQUEST: Rule = Rule {
        letter: b'F',
        number: 11,
    };

    /// A request does not have the next number of its side.
    pub const WRONG_NUMBER: Rule = Rule {
        letter: b'F',
        number: 12,
    };

    /// A constructor does not have the next id of its side.
    pub const WRONG_ID: Rule = Rule {
        letter: b'F',
        number: 13,
    };

    /// A padding byte is not 0.
    pub const BAD_PADDING: Rule = Rule {
        letter: b'F',
        number: 14,
    };

    /// A frame does not begin with the mark of its layout.
    pub const BAD_MARK: Rule = Rule {
        letter: b'F',
        number: 15,
    };

    /// A transcript ends before a whole history does.
    pub const EARLY_END: Rule = Rule {
        letter: b'C',
        number: 1,
    };

    /// A line of a transcript is not a step that is possible there.
    pub const NO_SUCH_STEP: Rule = Rule {
        letter: b'C',
        number: 2,
    };

    /// Returns the text that reports a breach of the rule, or an empty text if there is no such rule.
    pub fn text(self) -> &'static str
        ensures { result.now ≡ rule_text self }
    {
        match self {
            Rule::BAD_TOKEN => "bad token",
            Rule::SYNTAX_FAULT => "syntax fault",
            Rule::FILE_NOT_FOUND => "file not found",
            Rule::MISNAMED_PROTOCOL => "protocol does not bear the name of its file",
            Rule::TOO_LARGE => "too large",
            Rule::UNKNOWN_TYPE => "unknown type",
            Rule::AMBIGUOUS_TYPE => "ambiguous type",
            Rule::UNDEFINED_TYPE => "type is not defined",
            Rule::REPEATED_DECLARATION => "repeated declaration",
            Rule::NULLABLE_NON_ACTOR => "nullable on a type that is not an actor",
            Rule::REPEATED_FIELD => "repeated field",
            Rule::BAD_ATTRIBUTE => "bad attribute",
            Rule::UNKNOWN_PROTOCOL => "unknown protocol",
            Rule::MANAGER_DISAGREEMENT => "manager and manages disagree",
            Rule::TOO_MANY_MESSAGES => "too many messages",
            Rule::PLAIN_SYNC_TO_CHILD => "sync message of level not sent by the parent",
            Rule::INSIDE_SYNC_NOT_SYNC => "inside_sync message is not sync",
            Rule::INSIDE_CPOW_TO_CHILD => "inside_cpow message sent by the parent",
            Rule::STRONGER_MESSAGE => "message is stronger than its protocol",
            Rule::STRONGER_PROTOCOL => "protocol is stronger than its manager",
            Rule::BAD_COMPRESS => "compress on a message that is not plain async",
            Rule::MANAGER_CYCLE => "manager cycle",
            Rule::MISSING_CONSTRUCTOR => "constructor is missing",
            Rule::MISSING_DESTRUCTOR => "destructor is missing",
            Rule::UNMANAGED_CONSTRUCTOR => "constructor of a protocol that is not managed",
            Rule::REPEATED_NAME => "repeated name",
            Rule::REPEATED_PARAMETER => "repeated parameter",
            Rule::BAD_CONSTRUCTOR => "bad constructor or destructor",
            Rule::BAD_LAZY_SEND => "lazy send on a message that is not plain async",
            Rule::UNLISTED_SYNC => "sync message is not listed",
            Rule::LISTED_ASYNC => "listed message is async",
            Rule::LISTED_ABSENT => "listed message does not exist",
            Rule::NO_DESCRIPTION => "section has no description",
            Rule::NOT_A_STATEMENT => "not a statement",
            Rule::BLOCK_STRUCTURE => "block structure",
            Rule::UNKNOWN_MESSAGE => "unknown message",
            Rule::WRONG_DIRECTION => "wrong direction",
            Rule::UNFIT_VALUES => "values do not fit",
            Rule::NOT_ALLOWED_HERE => "not allowed here",
            Rule::UNCARRIED_TYPE => "type is not carried",
            Rule::NOT_A_TOP_PROTOCOL => "not a top protocol",
            Rule::UNREADABLE_SCRIPT => "script too large or absent",
            Rule::LARGE_PAYLOAD => "payload too large",
            Rule::UNKNOWN_FRAME_TYPE => "unknown type",
            Rule::BAD_FLAGS => "bad flags",
            Rule::BAD_FIELD => "bad field",
            Rule::BAD_TAG => "bad tag",
            Rule::BAD_TEXT => "bad text",
            Rule::SHORT_PAYLOAD => "payload too short",
            Rule::LONG_PAYLOAD => "payload too long",
            Rule::BAD_VALUE => "bad value",
            Rule::NOT_ONE_FRAME => "not one frame",
            Rule::UNSENT_REQUEST => "wrong direction",
            Rule::WRONG_NUMBER => "wrong number",
            Rule::WRONG_ID => "wrong id",
            Rule::BAD_PADDING => "bad padding",
            Rule::BAD_MARK => "bad mark",
            Rule::EARLY_END => "ends too early",
            Rule::NO_SUCH_STEP => "no such step",
            _ => "",
        }
    }
}

impl fmt::Display for Rule {
    ghost output = { λ rule. Some (rule_line rule) };

    /// Writes the letter and the number of the rule, a blank, and its text.
    fn fmt<W: fmt::Write>(&self, f: &mut fmt::Formatter<W>) -> fmt::Result {
        let letter = char::from(self.letter);
        let number = self.number;
        let text = self.text();
        write!(f, "{letter}{number} {text}")
    }
}

/// A broken rule with its place.
#[derive(Clone, Copy, Debug, PartialEq, Eq, PartialOrd, Ord)]
pub struct Finding {
    /// Where the rule is broken.
    pub place: Place,
    /// The rule that is broken.
    pub rule: Rule,
}

/// A list of findings.
pub type Findings = Items<Finding>;

/// A report: the findings in files, in the order of their places, each of them once, and the name of each file.
#[derive(Drop)]
pub struct Report {
    /// The findings, in order.
    pub findings: Findings,
    /// The names of the files, by their numbers.
    pub names: Texts,
}
