//! The laws over lists of calls and the worked example, as contracts.
ghost use Rattle.ledger_rules.specs.Examples.{LedgerExample};
ghost use Rattle.ledger_rules.specs.Laws.{RunsReport};

use keys::key::Key;

// After every list of calls from an opening the report law holds, and bounds enclose, at every kind of key.
pub fn reports_are_lawful<K: Key>()
    ensures { RunsReport K.Key }
{}

// The worked example of a ledger.
pub fn ledger_example_stands()
    ensures { LedgerExample }
{}
