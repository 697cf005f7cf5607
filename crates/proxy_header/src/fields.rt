//! The fields of a header: a type, a length of two bytes, and a value of that length.

ghost use Rattle.std.specs.Prelude.{◌≡◌};
ghost use Rattle.std.specs.Option.{option_copied};
ghost use Rattle.proxy_header.specs.Scanning.{only_value};

/// Returns the value of the only field of a type. `found` is the value of such a field in earlier bytes. Returns None
/// if there is no such field, if there is more than one, or if the bytes do not consist of whole fields.
#[tactic(auto, using(crate::proofs::Scans::field_steps))]
pub(crate) fn only_value<'a>(bytes: &'a [u8], kind: u8, found: Option<&'a [u8]>) -> Option<&'a [u8]>
    ensures { option_copied result ≡ only_value kind bytes.now (option_copied found.entry) }
{
    match bytes {
        [] => found,
        [of, high, low, rest @ ..] => {
            let length = *high as usize * 256 + *low as usize;
            if rest.len() < length {
                return None;
            }
            if *of != kind {
                return only_value(&rest[length..], kind, found);
            }
            if found.is_some() {
                return None;
            }
            only_value(&rest[length..], kind, Some(&rest[..length]))
        }
        _ => None,
    }
}
