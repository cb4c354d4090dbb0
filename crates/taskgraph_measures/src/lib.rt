// Buckets and minutes as C has them. include/taskgraph.h declares both. Follows docs/RULES.md, "Tables and their
// measures".
#![tactic(auto)]

ghost use Rattle.std.specs.Prelude.{◌≡◌};
ghost use Rattle.def_bucket.specs.Bucket.{bucket_of};
ghost use Rattle.def_minutes.specs.Minutes.{minutes_in, fixed_minutes};

// The bucket of a name: its top bits after the multiplication.
#[unsafe(no_mangle)]
pub extern "C" fn tg_bucket(name: u32, bits: u32) -> u32
    ensures { result ≡ bucket_of name bits }
{
    def_bucket::bucket(name, bits)
}

// The minutes of a class; 0 where there is no such class.
#[unsafe(no_mangle)]
pub extern "C" fn tg_minutes(class: u32) -> u32
    ensures { result ≡ minutes_in fixed_minutes class }
{
    def_minutes::minutes(class)
}
