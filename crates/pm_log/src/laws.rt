//! What holds of every log. The function does nothing: it stands for the law in its contract.

ghost use Rattle.std.specs.Prelude.{◌≡◌, ◌+◌, ◌-◌, min};
ghost use Rattle.pm_log.specs.{Half.{Half, whole_of}, Log.room_of, Making.IsUnderWay, declared.log.Log.Log};

/// While a file is being made, there is room for what has room in both files, once all so far is copied.
pub fn room_is_the_smaller()
    ensures { (log : Log) (half : Half) → IsUnderWay log half → room_of log
        ≡ min (log.limit - (log.end + 1)) (log.limit - (whole_of half log.end + 1)) }
{}
