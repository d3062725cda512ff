//! Laws of what an end reads from its own lines about requests, replies and settlings.
ghost use Rattle.channel_laws.specs.ExchangeLaws.{EndsReadExchanges, EndsTakeOnce};
ghost use Rattle.channel_laws.specs.SettledLaws.{HistoriesObeySettled};
ghost use Rattle.channel_laws.specs.Settlings.{EndsSettle};

/// The law of exchanges: from its own lines an end reads what has arrived and what it has promised, and it
/// answers each request at most once, if each packet that it receives is due.
pub fn ends_read_exchanges()
    ensures { EndsReadExchanges }
{}

/// The law of takes: an end takes no request twice, no reply twice that was delivered once, and nothing that
/// was not delivered.
pub fn ends_take_once()
    ensures { EndsTakeOnce }
{}

/// The law of an end's settlings: an end settles only its own promises, each once, and rejects them in falls
/// and closings with the matching reason, whatever the other end has sent.
pub fn ends_settle()
    ensures { EndsSettle }
{}

/// The law of settlings in histories: every legal history obeys the law of settlings.
pub fn histories_obey_settled()
    ensures { HistoriesObeySettled }
{}
