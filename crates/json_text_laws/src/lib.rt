//! Laws of the words of JSON: what `json_text` reads is what RFC 8259 and RFC 4648 say, each exactly where they say it.
//!
//! Each law is the contract of a function that does nothing. The code rests on none of them.
#![tactic(auto)]

ghost use Rattle.std.specs.Prelude.{◌≡◌, ℕ, ℤ, List, ◌++◌};
ghost use Rattle.json_text.specs.Int.{int_at};
ghost use Rattle.json_text.specs.Blob.{blob_at};
ghost use Rattle.json_text.specs.Text.{text_at};
ghost use Rattle.json_text.specs.declared.scanned.Scan.TheVariants.{Bad};
ghost use Rattle.json_text.specs.Number.{number_at};
ghost use Rattle.json_text_laws.specs.Judged.{Judges, NoneGood, GoodInt, GoodNumber, GoodBlob, GoodText, IsRange};
ghost use Rattle.json_text_laws.specs.Strings.{JudgesText};

/// An integer is read exactly where the longest run of digits and `-` spells one of the range. Else the scan is `Short`
/// exactly where some continuation of the bytes makes it one.
pub fn integers_are_judged()
    ensures { (low high : ℤ) (bytes : List ℕ) → IsRange low high → Judges (GoodInt low high) bytes (int_at low high bytes) }
{}

/// A number is passed over exactly where the longest run of digits and `+ - . e E` is a number of RFC 8259. Else the scan is
/// `Short` exactly where some continuation of the bytes makes it one.
pub fn numbers_are_judged()
    ensures { (bytes : List ℕ) → Judges GoodNumber bytes (number_at bytes) }
{}

/// A base64 string is read exactly where a front of the bytes is one of RFC 4648, without padding or with exactly the padding
/// to a multiple of four. Else the scan is `Short` exactly where some continuation of the bytes makes it one.
pub fn base64_is_judged()
    ensures { (bytes : List ℕ) → Judges GoodBlob bytes (blob_at bytes) }
{}

/// A string is read whole exactly where a front of the bytes is a JSON string, and its value is the text that its pieces
/// mean. Else the scan is `Short` exactly where some continuation of the bytes makes one good. It is `Bad(place)` exactly
/// where a fault stands at that place: the opening quote is called for there or, behind whole pieces, a piece or the closing
/// quote, and the bytes up to that item's end, as far as there are any, have no continuation that is good.
pub fn strings_are_judged()
    ensures { (bytes : List ℕ) → JudgesText bytes (text_at bytes) }
{}

/// Where the scan of a string is `Bad`, no continuation of the bytes has a front that is a JSON string, and the place stays
/// the same whatever comes behind.
pub fn refused_strings_stay_refused()
    ensures { (bytes more : List ℕ) (place : ℕ) → text_at bytes ≡ Bad place
        → (text_at (bytes ++ more) ≡ Bad place) × NoneGood GoodText (bytes ++ more) }
{}
