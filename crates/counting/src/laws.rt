//! The laws over runs and the worked examples, as contracts.
ghost use Rattle.counting.specs.Laws.{RunsLawful};
ghost use Rattle.counting.specs.Examples.{WorkedExamples};

use keys::key::Key;

// Every run of puts and takes from an opening is lawful, at every kind of key.
pub fn runs_are_lawful<K: Key>()
    ensures { RunsLawful K.Key.before }
{}

// The worked examples of the counting rule.
pub fn examples_stand()
    ensures { WorkedExamples }
{}
