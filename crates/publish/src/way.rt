// Which way a trace goes.
use renamed::names::Names;

pub(crate) fn from(back: bool) -> Names {
    if back {
        return Names::Published;
    }
    Names::Ours
}

pub(crate) fn to(back: bool) -> Names {
    from(!back)
}
