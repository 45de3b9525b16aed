//! Laws of the tool's replies, and its limits as numbers. Each is a function that does nothing: its
//! contract is the law.

ghost use Rattle.std.specs.Prelude.{◌≡◌, List};
ghost use Rattle.cilk_commands.specs.OneReply.{HasOneReply};
ghost use Rattle.cilk_commands.specs.Replies.{Text};
ghost use Rattle.cilk_commands.specs.Serving.{Surroundings};
ghost use Rattle.cilk_messages.specs.Words.{order_in};
ghost use Rattle.cilk_commands.specs.declared.disk.TheConstants.{MAX_FILE};
ghost use Rattle.cilk_commands.specs.declared.streams.TheConstants.{MAX_READ};
ghost use Rattle.cilk_types.specs.declared.limits.TheConstants.{MAX_WORKERS};

/// Two replies to the same words, files and input are equal, unless one is out of memory or blames
/// a device.
pub fn reply_is_one()
    ensures { (w : Surroundings) (words : List Text) → HasOneReply w (order_in words) }
{}

/// The limits as numbers: the bytes of the largest file, the bytes read from standard input, and
/// the workers of a script.
pub fn limits_are()
    ensures file { MAX_FILE ≡ 268435456 }
    ensures input { MAX_READ ≡ 262145 }
    ensures workers { MAX_WORKERS ≡ 64 }
{}
