//! Laws of the certificates of runs. Each is a function that does nothing: its contract is the law.

ghost use Rattle.std.specs.Prelude.{ℤ, List};
ghost use Rattle.cilk_program.specs.Syntax.{Source};
ghost use Rattle.cilk_cert_maker.specs.Certified.{RunsHaveOneCertificate};
ghost use Rattle.cilk_cert_maker.specs.Few.{RunsHaveFewColumns};

/// The certificate of a run is within the limits of the format.
///
/// A serial run of a well-named program that ends without a fault has one frame for each `begin`
/// event, at most [`MAX_FRAMES`](cilk_types::limits::MAX_FRAMES) of them, and at most
/// [`MAX_EVENTS`](cilk_types::limits::MAX_EVENTS) strands.
pub fn runs_have_few_columns()
    ensures { (p : Source) (inputs : List ℤ) → RunsHaveFewColumns p inputs }
{}

/// A run has at most one right certificate of each version.
///
/// This holds for the serial run of a well-named program that ends without a fault. It follows that
/// the texts are equal too. [`make`](crate::make::make) returns the certificate of version 2. The
/// law doesn't say that there is one of version 1.
pub fn runs_have_one_certificate()
    ensures { (p : Source) (inputs : List ℤ) → RunsHaveOneCertificate p inputs }
{}
