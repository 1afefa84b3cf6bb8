//! The sixteen hexadecimal digits of an address.

ghost use Rattle.std.specs.Prelude.{◌≡◌, ◌≤◌, if◌then◌else◌, length, Some, None};
ghost use Rattle.std.specs.List.{list_all};
ghost use Rattle.std.specs.Char.{is_ascii_hexdigit};
ghost use Rattle.std.specs.Str.Parse.{digits_value};
ghost use Rattle.dw_model.specs.Output.{sixteen_digits};

/// The most digits of an address.
pub const MOST_DIGITS: usize = 16;

/// The number that at most 16 hexadecimal digits write; none where one of them is no digit.
pub fn number(digits: &[u8]) -> Option<u64>
    requires { length digits.now ≤ 16 }
    ensures { result ≡ if list_all is_ascii_hexdigit digits.now then Some (digits_value 16 digits.now) else None }
{
    let mut padded = [b'0'; MOST_DIGITS];
    let zeros = MOST_DIGITS - digits.len();
    padded[zeros..].copy_from_slice(digits);
    let mut bytes = [0u8; 8];
    hex::decode_to_slice(&padded, &mut bytes).ok()?;
    Some(u64::from_be_bytes(bytes))
}

/// The 16 digits of an address, in lower case.
pub fn sixteen_digits(address: u64) -> [u8; MOST_DIGITS]
    ensures { result ≡ sixteen_digits address }
{
    let mut digits = [b'0'; MOST_DIGITS];
    hex::encode_to_slice(address.to_be_bytes(), &mut digits).unwrap();
    digits
}
