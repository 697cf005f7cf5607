//! A law of the topology file: a function without a body whose contract states the law.

ghost use Rattle.coord_config.specs.Written.{WrittenIsRead};

/// Reading the text of a topology returns the topology, provided that the topology is within the
/// limits and the text is a TOML document of at most 65,536 bytes. No clause says that the text is
/// always such a document.
pub fn written_is_read()
    ensures { WrittenIsRead }
{}
