//! Places by number. Behind the last one all are empty.

ghost use Rattle.std.specs.Prelude.{◌≡◌, ◌<◌, IfOk, None, Some, vec_len};
ghost use Rattle.std.specs.Option.{option_copied};
ghost use Rattle.obq_host.specs.Places.{AreSame, IsWith, IsWithTwo, at_place};

use obq_base::NoMemory;

/// Takes out what stands there.
pub(crate) fn take_at<T: Drop>(places: &mut Vec<Option<T>>, at: usize) -> Option<T>
    ensures taken { result ≡ at_place places.old.items at }
    ensures rest { IsWith places.old.items at None places.new.items }
{
    if at >= places.len() {
        return None;
    }
    places[at].take()
}

/// What stands there.
pub(crate) fn look_at<T>(places: &[Option<T>], at: usize) -> Option<&T>
    ensures { option_copied result ≡ at_place places.now at }
{
    places.get(at)?.as_ref()
}

/// There is such a place.
fn make_room<T: Drop>(places: &mut Vec<Option<T>>, at: usize) -> Result<(), NoMemory>
    ensures room { IfOk result (λ _. at < vec_len places.new) }
    ensures same { IfOk result (λ _. AreSame places.old.items places.new.items) }
{
    while places.len() <= at {
        places.push(None)?;
    }
    Ok(())
}

/// This stands there then.
pub(crate) fn put_at<T: Drop>(
    places: &mut Vec<Option<T>>,
    at: usize,
    value: T,
) -> Result<(), NoMemory>
    ensures { IfOk result (λ _. IsWith places.old.items at (Some value) places.new.items) }
{
    make_room(places, at)?;
    places[at] = Some(value);
    Ok(())
}

/// Puts this at one place, and then the other, if there is one, at another. Whether there is one.
pub(crate) fn put_two<T: Drop>(
    places: &mut Vec<Option<T>>,
    at: usize,
    value: T,
    further: usize,
    other: Option<T>,
) -> Result<bool, NoMemory>
    ensures { IfOk result (λ more. IsWithTwo places.old.items at value further other more places.new.items) }
{
    put_at(places, at, value)?;
    match other {
        None => Ok(false),
        Some(other) => {
            put_at(places, further, other)?;
            Ok(true)
        }
    }
}
