// Room for the names of the schedules that are not good: 1,048,576 bytes. The promise gives only the length, which lending an array as a slice needs: a list
// as long as this is not computed.
ghost use Rattle.std.specs.Prelude.{◌≡◌, length};

// The names, one behind the other.
pub(crate) fn for_names() -> [u8; 1048576]
    ensures { 1048576 ≡ length result }
{
    [0; 1048576]
}
