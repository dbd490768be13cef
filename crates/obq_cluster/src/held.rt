//! A World that lies under a lock.

use crate::cluster::{Step, Steps};
use obq_world::{Advanced, Machine, Naming, Refused, World};

/// A World, or why there is none any more.
#[derive(Drop)]
pub struct Held<J: Naming, M: Machine<J>> {
    world: Option<World<J, M>>,
    /// Says something only where there is no World.
    why: Refused,
}

impl<J: Naming, M: Machine<J>> Held<J, M> {
    /// Holds this World.
    pub fn new(world: World<J, M>) -> Held<J, M> {
        Held {
            world: Some(world),
            why: Refused::NoMemory,
        }
    }

    /// The World, or why there is none.
    pub fn into_world(self) -> Result<World<J, M>, Refused> {
        let Held { world, why } = self;
        match world {
            Some(world) => Ok(world),
            None => Err(why),
        }
    }
}

impl<J: Naming + Send, M: Machine<J> + Send> Steps<J> for Held<J, M>
where
    M::Codes: Send,
{
    fn step(&mut self, most: u32) -> Step<J> {
        let Some(world) = self.world.take() else {
            return Step::Refused(self.why);
        };
        match world.advance(most) {
            Ok(Advanced::Went(world)) => {
                self.world = Some(world);
                Step::Went
            }
            Ok(Advanced::Over(world, seen)) => {
                self.world = Some(world);
                Step::Over(seen)
            }
            Ok(Advanced::Claimed(world)) => {
                self.world = Some(world);
                Step::Claimed
            }
            Err(why) => {
                self.why = why;
                Step::Refused(why)
            }
        }
    }
}
