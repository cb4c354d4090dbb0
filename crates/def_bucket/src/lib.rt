// The bucket of a name. Follows docs/RULES.md, "Tables and their measures": "The bucket of a name is the top b bits of
// its product with 2654435769, kept to 32 bits".
#![tactic(auto)]

ghost use Rattle.std.specs.Prelude.{◌≡◌};
ghost use Rattle.def_bucket.specs.Bucket.{product_of, bucket_of};

const WORD_BITS: u32 = 32;

const MULTIPLIER: u32 = 2654435769;

// The product of two words, kept to 32 bits.
#[tactic(auto, unfolding(crate::specs::Bucket::product_of))]
pub fn product(x: u32, y: u32) -> u32
    ensures { result ≡ product_of x y }
{
    x.wrapping_mul(y)
}

// The top bits of a name's product with the multiplier. The shift is one of 64 bits, so that no bits, a shift by 32,
// need no test of their own.
pub fn bucket(name: u32, bits: u32) -> u32
    ensures { result ≡ bucket_of name bits }
{
    let mixed = product(name, MULTIPLIER);
    if bits < WORD_BITS {
        ((mixed as u64) >> (WORD_BITS - bits)) as u32
    } else {
        mixed
    }
}
