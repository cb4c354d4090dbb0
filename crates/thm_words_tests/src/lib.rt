// What the tests mean that come first in every call, and single words by their places, stands in specs/: laws for all
// tables, damaged ones too.
#![tactic(auto)]
