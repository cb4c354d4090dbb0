// The arguments of an add: whether they are turned away with number 5. Follows docs/RULES.md, "Turned-away calls".
#![tactic(auto)]

ghost use Rattle.std.specs.Prelude.{◌≡◌, ◌≤◌, drop};
ghost use Rattle.def_numbers.specs.Numbers.{most_names};
ghost use Rattle.def_basics.specs.Base.{contains, repeats, prefix};
ghost use Rattle.def_terms.specs.Terms.{arguments_wrong};

use def_numbers::{MOST_CLASS, MOST_GROWER, MOST_NAMES};

// A name is among the first `count` names, from `start` on.
fn listed_from(names: &[u32; 32], start: usize, count: usize, name: u32) -> bool
    requires { (start ≤ count) × (count ≤ most_names) }
    ensures { result ≡ contains name (drop start (prefix count names.now)) }
{
    let mut i = start;
    while i < count {
        if names[i] == name {
            return true;
        }
        i += 1;
    }
    false
}

// One of the first `count` names comes again.
fn any_repeats(names: &[u32; 32], count: usize) -> bool
    requires { count ≤ most_names }
    ensures { result ≡ repeats (prefix count names.now) }
{
    let mut i = 0;
    while i < count {
        let again = listed_from(names, i + 1, count, names[i]);
        if again {
            return true;
        }
        i += 1;
    }
    false
}

pub fn arguments_wrong(name: u32, names: &[u32; 32], count: u32, class: u32, grower: u32) -> bool
    ensures { result ≡ arguments_wrong
        (record { name = name; count = count; names = names.now; class = class; grower = grower }) }
{
    let over = (MOST_CLASS < class) | (MOST_GROWER < grower) | (MOST_NAMES < count);
    if over {
        true
    } else {
        listed_from(names, 0, count as usize, name) | any_repeats(names, count as usize)
    }
}
