//! A law of what a copy passes through.
ghost use Rattle.std.specs.Prelude.{◌≡◌, true};
ghost use Rattle.std.specs.List.{AllByRecursion};
ghost use Rattle.image_disks.specs.Blocks.{Plan};
ghost use Rattle.image_disks.specs.Values.{Value};
ghost use Rattle.copyaudit.specs.Copying.{copy_stages, message_ends, IsBetween};

/// What a copy passes through has received at least what was received before it, and nothing that neither side had.
pub fn stages_are_between()
    ensures { (plan : Plan) (lead lag : Value) → plan.used 0 ≡ true → AllByRecursion (IsBetween lead lag) (copy_stages plan lead (message_ends lead lag) lag) }
{}
