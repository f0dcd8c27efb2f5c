// What the calls over the C boundary have in common: definitions, laws, and the number of the interface. include/khamdoriem.h declares the functions,
// docs/INTERFACE.md says what they answer. Those of a service stand in a crate of their own, so that none is proved or compiled with what it does not call.
#![tactic(auto)]

ghost use Rattle.std.specs.Prelude.{◌≡◌};
ghost use Rattle.exports.specs.Exports.{interface_number};

// The number of the interface, which a host compares with that of its header.
pub fn khamdoriem_interface() -> u32
    ensures { result ≡ interface_number }
{
    2
}
