// The forms of the pieces, for searches that try one after the other.

/// The forms of a piece, written once for all searches: `join!` of one `form!` for each form. A form is the spans of its
/// rows, from the lowest row up, behind what is given. The caller names the spans by `use`.
#[macro_export]
macro_rules! forms_of {
    (I, $join:ident, $form:ident, $($given:tt)*) => {
        $join!($form!($($given)*; AllFour), $form!($($given)*; First, First, First, First))
    };
    (L, $join:ident, $form:ident, $($given:tt)*) => {
        $join!(
            $form!($($given)*; FirstThree, Third),
            $form!($($given)*; FirstTwo, First, First),
            $form!($($given)*; First, FirstThree),
            $form!($($given)*; Second, Second, FirstTwo)
        )
    };
    (O, $join:ident, $form:ident, $($given:tt)*) => {
        $join!($form!($($given)*; FirstTwo, FirstTwo))
    };
    (Z, $join:ident, $form:ident, $($given:tt)*) => {
        $join!($form!($($given)*; SecondTwo, FirstTwo), $form!($($given)*; First, FirstTwo, Second))
    };
    (T, $join:ident, $form:ident, $($given:tt)*) => {
        $join!(
            $form!($($given)*; FirstThree, Second),
            $form!($($given)*; First, FirstTwo, First),
            $form!($($given)*; Second, FirstThree),
            $form!($($given)*; Second, FirstTwo, Second)
        )
    };
    (J, $join:ident, $form:ident, $($given:tt)*) => {
        $join!(
            $form!($($given)*; FirstThree, First),
            $form!($($given)*; First, First, FirstTwo),
            $form!($($given)*; Third, FirstThree),
            $form!($($given)*; FirstTwo, Second, Second)
        )
    };
    (S, $join:ident, $form:ident, $($given:tt)*) => {
        $join!($form!($($given)*; FirstTwo, SecondTwo), $form!($($given)*; Second, FirstTwo, First))
    };
}
