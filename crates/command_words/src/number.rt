//! Numbers in words, with their ranges and defaults.
ghost use Rattle.std.specs.Prelude.{◌≡◌, ◌≤◌, IfSome, option_map};
ghost use Rattle.std.specs.Str.{all_ascii_digits};
ghost use Rattle.command_words.specs.Numbers.{analyse_budget, edition_budget, load_functions, load_number, number, number_or, serve_hands, serve_port, serve_rounds};

/// The turns of `analyse`.
pub fn analyse_budget(value: Option<&str>) -> Option<u64>
    ensures { result ≡ analyse_budget (option_map (λ s. s.now) value.entry) }
{
    number_or_default(value, 1, 10_000_000, 100_000)
}

/// The turns for one edition, in `debug` and `serve`.
pub fn edition_budget(value: Option<&str>) -> Option<u64>
    ensures { result ≡ edition_budget (option_map (λ s. s.now) value.entry) }
{
    number_or_default(value, 1, 50_000, 20_000)
}

/// The number of `load`.
pub fn load_number(text: &str) -> Option<u64>
    ensures { result ≡ load_number text.now }
{
    number_in(text, 18, 0, 999_999_999_999_999_999)
}

/// The functions of `load`.
pub fn load_functions(value: Option<&str>) -> Option<u32>
    ensures { result ≡ load_functions (option_map (λ s. s.now) value.entry) }
{
    small_or_default(value, 1, 120, 40)
}

/// The hands of `serve`.
pub fn serve_hands(value: Option<&str>) -> Option<u32>
    ensures { result ≡ serve_hands (option_map (λ s. s.now) value.entry) }
{
    small_or_default(value, 1, 8, 1)
}

/// The rounds of each hand of `serve`.
pub fn serve_rounds(value: Option<&str>) -> Option<u32>
    ensures { result ≡ serve_rounds (option_map (λ s. s.now) value.entry) }
{
    small_or_default(value, 1, 1_000, 1)
}

/// The first port of `serve`.
pub fn serve_port(value: Option<&str>) -> Option<u16>
    ensures { result ≡ serve_port (option_map (λ s. s.now) value.entry) }
{
    port_or_default(value, 1_024, 65_000, 4_711)
}

/// The number of 1 to `digits` ASCII digits, from `least` to `greatest`.
fn number_in(text: &str, digits: usize, least: u64, greatest: u64) -> Option<u64>
    ensures is { result ≡ number digits least greatest text.now }
    ensures within { IfSome result (λ n. n ≤ greatest) }
{
    let bytes = text.as_bytes();
    if bytes.is_empty() || bytes.len() > digits || !are_digits(bytes) {
        return None;
    }
    match text.parse::<u64>() {
        Ok(value) => {
            if least <= value && value <= greatest {
                Some(value)
            } else {
                None
            }
        }
        Err(_) => None,
    }
}

/// The same of an option's value; the default where there is none.
fn number_or_default(value: Option<&str>, least: u64, greatest: u64, default: u64) -> Option<u64>
    requires { default ≤ greatest }
    ensures is { result ≡ number_or least greatest default (option_map (λ s. s.now) value.entry) }
    ensures within { IfSome result (λ n. n ≤ greatest) }
{
    match value {
        Some(text) => number_in(text, 8, least, greatest),
        None => Some(default),
    }
}

/// The same as a number of 32 bits.
fn small_or_default(value: Option<&str>, least: u32, greatest: u32, default: u32) -> Option<u32>
    requires { default ≤ greatest }
    ensures { result ≡ number_or least greatest default (option_map (λ s. s.now) value.entry) }
{
    match number_or_default(value, least as u64, greatest as u64, default as u64) {
        Some(number) => Some(number as u32),
        None => None,
    }
}

/// The same as a number of 16 bits.
fn port_or_default(value: Option<&str>, least: u16, greatest: u16, default: u16) -> Option<u16>
    requires { default ≤ greatest }
    ensures { result ≡ number_or least greatest default (option_map (λ s. s.now) value.entry) }
{
    match number_or_default(value, least as u64, greatest as u64, default as u64) {
        Some(number) => Some(number as u16),
        None => None,
    }
}

fn are_digits(bytes: &[u8]) -> bool
    ensures { result ≡ all_ascii_digits bytes.now }
{
    for byte in bytes {
        if !byte.is_ascii_digit() {
            return false;
        }
    }
    true
}
