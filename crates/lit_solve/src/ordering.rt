//! The least memory-order of a frame.

ghost use Rattle.std.specs.Prelude.{ℕ, IfNone, IfSome, List, length};
ghost use Rattle.lit_order.specs.MemoryOrder.{IsLeastOrderOf, IsOrderOf};
ghost use Rattle.lit_solve.specs.Given.{HappensBeforeIn, IsForbiddenIn};
ghost use Rattle.lit_solve.specs.Box.{events_on};
ghost use Rattle.lit_solve.specs.Internal.Frames.{IsExact, box_of};

use crate::frame::Frame;
use crate::problem::Problem;
use lit_order::{Order, least_of};
use lit_rel::Between;

impl Problem<'_> {
    /// The least order of what a frame gives, or `None` exactly if there is none. The frame's relations are those of its box.
    pub(crate) fn least_order(&self, frame: &Frame) -> Option<Order>
        requires { IsExact (box_of self.now frame.now) frame.now }
        ensures found { IfSome result (λ order. IsLeastOrderOf (length (events_on self.now)) (HappensBeforeIn (box_of self.now frame.now))
            (IsForbiddenIn (box_of self.now frame.now)) order.items) }
        ensures none { IfNone result ((order : List ℕ) →
            ¬ IsOrderOf (length (events_on self.now)) (HappensBeforeIn (box_of self.now frame.now))
            (IsForbiddenIn (box_of self.now frame.now)) order) }
    {
        let mut between = Between::new(0);
        self.put_between(frame, &mut between);
        let order = least_of(&frame.forced, &between)?;
        Some(order)
    }
}
