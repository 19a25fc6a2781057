// Numbers and addresses as arguments of the command line.
ghost use Rattle.std.specs.Prelude.{◌≡◌};
ghost use Rattle.std.specs.Char.{is_ascii_digit, is_ascii_hexdigit};
ghost use Rattle.std.specs.List.{list_all};
ghost use Rattle.command_spec.specs.Number.{number_of, address_of};

const MOST_DIGITS: usize = 10;

// As many hexadecimal digits as an address has.
const MOST_HEX_DIGITS: usize = 8;

/// The number that 1 to 10 decimal digits spell. None where the text is anything else.
#[tactic(auto, using(crate::proofs::Digits::all_by_list))]
pub(crate) fn number_of(text: &str) -> Option<u64>
    ensures { result ≡ number_of text.now }
{
    if text.is_empty() || text.len() > MOST_DIGITS || !is_digits(text.as_bytes()) {
        return None;
    }
    text.parse::<u64>().ok()
}

fn is_digits(text: &[u8]) -> bool
    ensures { result ≡ list_all is_ascii_digit text.now }
{
    text.iter().all(|byte| byte.is_ascii_digit())
}

/// The address that `0x` and 1 to 8 hexadecimal digits of either case spell. None where the text is anything else.
pub(crate) fn address_of(text: &str) -> Option<u32>
    ensures { result ≡ address_of text.now }
{
    let digits = text.strip_prefix("0x")?;
    if digits.is_empty() || digits.len() > MOST_HEX_DIGITS || !is_hex_digits(digits.as_bytes()) {
        return None;
    }
    u32::from_str_radix(digits, 16).ok()
}

fn is_hex_digits(text: &[u8]) -> bool
    ensures { result ≡ list_all is_ascii_hexdigit text.now }
{
    text.iter().all(|byte| byte.is_ascii_hexdigit())
}
