//! Writing a certificate's text whole.

ghost use Rattle.std.specs.Prelude.{◌≡◌, IfOk};
ghost use Rattle.cilk_cert_text.specs.Certificates.{text_of};

use crate::certificate::Certificate;
use crate::writer::LineWriter;
use std::alloc::{AllocError, Global};

const PIECE: usize = 4096;

/// Returns the text of a certificate, or an error if memory runs out. To pass the text on in
/// pieces, use a [`LineWriter`].
pub fn write(alloc: Global, certificate: &Certificate) -> Result<Vec<u8>, AllocError>
    ensures { IfOk result (λ text. text.items ≡ text_of certificate.now) }
{
    let mut lines = LineWriter::new(certificate);
    let mut text = Vec::new(alloc);
    let mut piece = [0u8; PIECE];
    let mut count = lines.fill(&mut piece);
    'pieces: while count > 0 {
        text.extend_from_slice(&piece[..count])?;
        count = lines.fill(&mut piece);
    }
    Ok(text)
}
