//! The slots of variables in scope.
ghost use Rattle.std.specs.Prelude.{◌≡◌, ◌<◌, ◌^◌, length};
ghost use Rattle.c_names.specs.Slots.{slot_of};

/// The slot of the variable that a name denotes, where the names in scope are listed by slot: the
/// last of that name, which is the innermost. Takes no memory.
pub fn slot_of(scope: &[u32], name: u32) -> Option<u32>
    requires { length scope.now < 2 ^ 32 }
    ensures { result ≡ slot_of scope.now name }
{
    let mut found = None;
    let mut slot: u32 = 0;
    for standing in scope {
        if *standing == name {
            found = Some(slot);
        }
        slot += 1;
    }
    found
}
