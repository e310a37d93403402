ghost use Rattle.std.specs.Prelude.{◌≡◌, ℕ, List};
ghost use Rattle.rpc_model.specs.declared.direction.Direction.{Direction};
ghost use Rattle.prpc_frames.specs.declared.frame.Frame.{Frame};
ghost use Rattle.echo_server.specs.Answers.{direction};
ghost use Rattle.echo_server.specs.Serving.{after_all, requests, direction_at};

/// A law of the definitions: after any frames, the next request follows the direction whose number is that of the
/// requests before it, modulo the number of directions.
pub fn requests_follow_directions_in_turn()
    ensures { (words : List Direction) (before : List Frame) → direction (after_all (record { words = words; at = 0 }) before) ≡ direction_at words (requests before) }
{}
