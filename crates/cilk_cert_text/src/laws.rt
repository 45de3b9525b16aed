//! Laws of the format. Each function does nothing; its contract is the law.

ghost use Rattle.std.specs.Prelude.{◌≡◌, ◌≢◌, ◌+◌, ◌*◌, ◌<◌, ◌≤◌, ℕ, List, [], ◌++◌, length, None, Some};
ghost use Rattle.cilk_cert_text.specs.declared.line.Line.{Line};
ghost use Rattle.cilk_cert_text.specs.declared.line.Form.{Form};
ghost use Rattle.cilk_cert_text.specs.Lines.{spelled, line_of};
ghost use Rattle.cilk_cert_text.specs.Certificates.{Contents, IsCertificate, IsAt, text_of, lines_of, text_of_lines};
ghost use Rattle.cilk_cert_text.specs.Reading.{reading_of};
ghost use Rattle.cilk_cert_text.specs.declared.reader.TheConstants.{MAX_LINE};

/// Different certificates have different texts.
pub fn one_certificate()
    ensures { (c d : Contents) → IsCertificate c → IsCertificate d → text_of c ≡ text_of d → c ≡ d }
{}

/// No certificate's text is a proper beginning of another's.
pub fn none_begins_another()
    ensures { (c d : Contents) (rest : List ℕ) → IsCertificate c → IsCertificate d → text_of c ++ rest ≡ text_of d → rest ≡ [] }
{}

/// A certificate's text is read as its lines, without a fault.
pub fn written_is_read()
    ensures { (c : Contents) → IsCertificate c → reading_of (text_of c) ≡ record { lines = lines_of c; fault = None } }
{}

/// A text that is read without a fault is the text of a certificate with these lines.
pub fn read_is_written()
    ensures { (text : List ℕ) → (reading_of text).fault ≡ None → (c : Contents) × IsCertificate c × ((reading_of text).lines ≡ lines_of c) × (text ≡ text_of c) }
{}

/// A line that may be at a place has one spelling, and is what that spelling is read as there.
pub fn one_spelling()
    ensures read { (form : Form) (line : Line) → IsAt form line → line_of form (spelled line) ≡ Some line }
    ensures written { (form : Form) (bytes : List ℕ) (line : Line) → line_of form bytes ≡ Some line → IsAt form line × (bytes ≡ spelled line) }
{}

/// The lines before the first fault have at most 134,217,631 bytes, so with one more line of up to
/// 97 bytes they are within the format's limit of 134,217,728 bytes. A reader need not test that
/// limit.
pub fn within_limit()
    ensures { (text : List ℕ) → length (text_of_lines (reading_of text).lines) + 97 ≤ 134217728 }
{}

/// The most bytes of a line without its LF, as a number. The contract of
/// [`LineReader::new`](crate::reader::LineReader::new) bounds the bytes of a text.
pub fn limits_are()
    ensures { MAX_LINE ≡ 96 }
{}
