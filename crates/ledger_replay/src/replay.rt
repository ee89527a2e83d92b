//! A log of calls, made in turn.
ghost use Rattle.std.specs.Prelude.{◌≡◌, List, [], ◌∷◌, map, Some, None, vec_len, MatchResult};
ghost use Rattle.ledger_rules.specs.Tallies.{Event};
ghost use Rattle.ledger.specs.OfLedger.{Beside, Reached};
ghost use Rattle.ledger.specs.Openings.{open_refusal};
ghost use Rattle.ledger_replay.specs.Logs.{event_of, call_of, history};
ghost use Rattle.ledger_replay.specs.Replays.{Reported, Replayed};

use super::log::Logged;
use books::fill::Fill;
use keys::key::Key;
use ledger::{Ledger, OpenRefused};
use ledger_rules::Entry;
use places::place::Place;
use refusals::Refusal;

// Makes one call, and answers it with its answer.
fn make<'a, K: Key>(ledger: &mut Ledger<K>, call: &Logged<'a, K>) -> Logged<'a, K>
    ensures same { call_of result ≡ call_of call.now }
    ensures beside { Beside ledger.old ledger.new }
    ensures run { (es : List (Event K)) → Reached es ledger.old → Reached (event_of result ∷ es) ledger.new }
{
    match call {
        Logged::Add(key, _) => Logged::Add(*key, ledger.add(*key)),
        Logged::Retract(key, _) => Logged::Retract(*key, ledger.retract(*key)),
        Logged::Feed(frame, _) => Logged::Feed(*frame, ledger.feed(*frame)),
    }
}

// Makes each call of the log in turn, and notes its answer there.
pub fn make_all<'a, K: Key>(ledger: &mut Ledger<K>, log: &mut [Logged<'a, K>])
    ensures calls { map call_of log.new ≡ map call_of log.old }
    ensures beside { Beside ledger.old ledger.new }
    ensures run { (es : List (Event K)) → Reached es ledger.old → Reached (history es log.new) ledger.new }
{
    for call in log.iter_mut() {
        *call = make(ledger, call);
    }
}

// Makes each call of the log in turn, and asks for a report.
fn report_after<'a, K: Key>(
    ledger: &mut Ledger<K>,
    log: &mut [Logged<'a, K>],
    threshold: u32,
    out: &mut [Entry<K>],
) -> Result<usize, Refusal>
    ensures calls { map call_of log.new ≡ map call_of log.old }
    ensures beside { Beside ledger.old ledger.new }
    ensures run { (es : List (Event K)) → Reached es ledger.old → Reached (history es log.new) ledger.new }
    ensures report { (es : List (Event K)) → Reached es ledger.old → Reported (history es log.new) threshold out.old out.new ledger.new result }
{
    make_all(ledger, log);
    ledger.report(threshold, out)
}

// Opens a ledger, makes each call of the log in turn and notes its answer there, and asks for a report.
pub fn replay<'a, K: Key>(
    table: Vec<Place<K>>,
    fills: Vec<Fill>,
    width: usize,
    share: u16,
    log: &mut [Logged<'a, K>],
    threshold: u32,
    out: &mut [Entry<K>],
) -> Result<(Ledger<K>, Result<usize, Refusal>), OpenRefused<K>>
    ensures calls { map call_of log.new ≡ map call_of log.old }
    ensures law { MatchResult result (λ p. (open_refusal width share (vec_len table) (vec_len fills) ≡ None) × Replayed table.items width share (history [] log.new) p.0 × Reported (history [] log.new) threshold out.old out.new p.0 p.1) (λ e. (open_refusal width share (vec_len table) (vec_len fills) ≡ Some e.refusal) × (e.table ≡ table) × (e.fills ≡ fills) × (log.new ≡ log.old) × (out.new ≡ out.old)) }
{
    let mut ledger = Ledger::open(table, fills, width, share)?;
    let answer = report_after(&mut ledger, log, threshold, out);
    Ok((ledger, answer))
}
