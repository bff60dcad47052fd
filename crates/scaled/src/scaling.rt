// A raw number times a power of two, as a 64-bit float.
ghost use Rattle.std.specs.Prelude.{◌≡◌, pos};
ghost use Rattle.scaled.specs.Scaled.{IsSmall, scaled_of};

// raw times 2 ^ -unit, exactly.
pub fn scaled(raw: i32, unit: u32) -> f64
    requires { IsSmall unit }
    ensures { result ≡ scaled_of raw unit }
{
    raw as f64 * power(unit)
}

// 2 ^ -unit: 1023 - unit in the field of the exponent, and zeros.
fn power(unit: u32) -> f64
    requires { IsSmall unit }
    ensures { result ≡ scaled_of (pos 1) unit }
{
    f64::from_bits((1023 - unit as u64) << 52)
}
