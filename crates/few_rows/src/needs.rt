// How many rows a store needs for each client.
ghost use Rattle.std.specs.Prelude.{◌≡◌, ◌⊎◌, ◌<◌, ◌≤◌};

/// How many rows a store needs for each client, where each may begin so many and none has more commands than
/// so many that may begin one.
pub fn rows_for(allowed: u32, begins: usize) -> u32
    requires { 0 < allowed }
    ensures some { 0 < result }
    ensures few { result ≤ allowed }
    ensures enough { (result ≡ allowed) ⊎ (begins ≤ result) }
    ensures no_more { (result ≡ 1) ⊎ (result ≤ begins) }
{
    begins.min(allowed as usize).max(1) as u32
}
