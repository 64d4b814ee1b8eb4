//! What is proved of rule texts and their meaning.
ghost use Rattle.rules.specs.Examples.{WorkedTexts};
ghost use Rattle.rules.specs.Expression.{PlainReadings};

use labels::kind::NameLabel;

/// `.//` leads to the proper descendants, and `//` at the front to every node of the listing.
pub fn readings_are_plain<N: NameLabel>()
    ensures { PlainReadings N.spelled N.alike }
{}

/// The examples are judged as they should be.
pub fn examples_are_judged()
    ensures { WorkedTexts }
{}
