//! What holds of effects and events, whichever core they are of.
ghost use Rattle.fin_core.specs.Laws.{AnyOrderIsSerial, EachWordIsReduced};

/// Events in any order that use all effects up leave what the chunks leave one after another.
pub fn any_order_is_serial()
    ensures { AnyOrderIsSerial }
{}

/// Effects of one reduction leave each word reduced by their values.
pub fn each_word_is_reduced()
    ensures { EachWordIsReduced }
{}
