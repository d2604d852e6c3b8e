//! What the byte code of terms promises.
ghost use Rattle.ca_term.specs.CodeLaws.{ArePrefixFree, CompareAsTerms};
ghost use Rattle.ca_term.specs.Grammar.{AreCodesOfTerms};

/// No code is a proper prefix of another term's code, the bytes of two codes compare as the terms do, and the codes are a
/// language that is told by its bytes alone.
pub fn code_laws()
    ensures prefix_free { ArePrefixFree }
    ensures compare { CompareAsTerms }
    ensures grammar { AreCodesOfTerms }
{}
