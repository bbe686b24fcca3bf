/// The version of the program. The scripts that set a program at hand write over what stands in the brackets and behind
/// them whether it was proved, of which commit it is and by which kit; no word of it is longer than this text.
pub(crate) const VERSION: &str =
    "0.1.0 (nothing is recorded of how this program was made)                                                                                                                                                        ";
