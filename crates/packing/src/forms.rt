// How the forms of a piece are tried one after the other.

// Whether one of these calls answers true. The calls after it are not made.
macro_rules! any_of {
    ($last:expr) => {
        $last
    };
    ($first:expr, $($others:expr),+) => {{
        if $first {
            return true;
        }
        any_of!($($others),+)
    }};
}

// Whether a form can cover the first cell. Where its lowest span has the first column, it lies in the first cell's row.
macro_rules! tries {
    ($cells:expr, $y:expr, $supply:expr, $known:expr; AllFour) => {
        first_one($cells, $y, AllFour, $supply, $known)
    };
    ($cells:expr, $y:expr, $supply:expr, $known:expr; SecondTwo, $b:ident) => {
        stacks_two($cells, $y, 0, SecondTwo, $b, $supply, $known)
    };
    ($cells:expr, $y:expr, $supply:expr, $known:expr; Second, $b:ident) => {
        stacks_two($cells, $y, 0, Second, $b, $supply, $known)
    };
    ($cells:expr, $y:expr, $supply:expr, $known:expr; Third, $b:ident) => {
        stacks_two($cells, $y, 0, Third, $b, $supply, $known)
    };
    ($cells:expr, $y:expr, $supply:expr, $known:expr; Second, $b:ident, $c:ident) => {
        stacks_three($cells, $y, 0, Second, $b, $c, $supply, $known)
    };
    ($cells:expr, $y:expr, $supply:expr, $known:expr; $a:ident, $b:ident) => {
        first_two($cells, $y, $a, $b, $supply, $known)
    };
    ($cells:expr, $y:expr, $supply:expr, $known:expr; $a:ident, $b:ident, $c:ident) => {
        first_three($cells, $y, $a, $b, $c, $supply, $known)
    };
    ($cells:expr, $y:expr, $supply:expr, $known:expr; $a:ident, $b:ident, $c:ident, $d:ident) => {
        first_four($cells, $y, $a, $b, $c, $d, $supply, $known)
    };
}

pub(crate) use any_of;
pub(crate) use tries;
