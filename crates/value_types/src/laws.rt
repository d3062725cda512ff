//! Laws of values, their sizes and their texts.
ghost use Rattle.value_types.specs.Laws.{BoxesSayNothing, NewIsAtMostFourTimes};

/// The law of boxes: the types, sizes and texts of values do not depend on where their boxes are.
pub fn boxes_say_nothing()
    ensures { BoxesSayNothing }
{}

/// The law of the two layouts: a payload takes at most four times as many bytes in the new layout as in the
/// old one.
pub fn new_is_at_most_four_times()
    ensures { NewIsAtMostFourTimes }
{}
