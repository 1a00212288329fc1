// Fields of few cells, and how many queues are good in each way to play.
use hold_queue::Hold;
use moves::DropMode;
use srs::Piece;

/// The offsets of the Super Rotation System.
const USUAL: &str = "";

/// An I that is turned as it spawns rises by three rows, so with hard drops it lies flat. An L and a T have no kicks.
const OTHER: &str =
    "IR:0,-3/0,-3/0,-3/0,-3/0,-3;IL:0,-3/0,-3/0,-3/0,-3/0,-3;LR:0,0/0,0/0,0/0,0/0,0;LL:0,0/0,0/0,0/0,0/0,0;TR:0,0/0,0/0,0/0,0/0,0;TL:0,0/0,0/0,0/0,0/0,0";

/// Ways to play: whether the player may hold, whether the field's piece is held at the start, the drop mode, and the
/// text of the table of offsets.
pub const WAYS: [(Hold, bool, DropMode, &str); 16] = [
    (Hold::Allowed, false, DropMode::Soft, USUAL),
    (Hold::Allowed, false, DropMode::Soft, OTHER),
    (Hold::Allowed, false, DropMode::Hard, USUAL),
    (Hold::Allowed, false, DropMode::Hard, OTHER),
    (Hold::Allowed, true, DropMode::Soft, USUAL),
    (Hold::Allowed, true, DropMode::Soft, OTHER),
    (Hold::Allowed, true, DropMode::Hard, USUAL),
    (Hold::Allowed, true, DropMode::Hard, OTHER),
    (Hold::Avoided, false, DropMode::Soft, USUAL),
    (Hold::Avoided, false, DropMode::Soft, OTHER),
    (Hold::Avoided, false, DropMode::Hard, USUAL),
    (Hold::Avoided, false, DropMode::Hard, OTHER),
    (Hold::Avoided, true, DropMode::Soft, USUAL),
    (Hold::Avoided, true, DropMode::Soft, OTHER),
    (Hold::Avoided, true, DropMode::Hard, USUAL),
    (Hold::Avoided, true, DropMode::Hard, OTHER),
];

/// The rows of a field, its height, a pattern, a piece that may be held at the start, and how many queues are good in
/// each of the ways.
pub type SmallField<'a> = (&'a str, u8, &'a str, Piece, [u32; 16]);

/// Fields that two to four pieces clear, of two to eight rows, and one whose empty cells no number of pieces fills.
pub const SMALL_FIELDS: &[SmallField] = &[
    (
        "XXXXXX____/XXXXXX____",
        2,
        "[LO],[LT],[OS]",
        Piece::L,
        [4, 4, 4, 4, 6, 6, 6, 6, 2, 2, 2, 2, 2, 2, 2, 2],
    ),
    (
        "__X____XXX/__XXXXXXXX",
        2,
        "[ILOT]p3",
        Piece::I,
        [12, 12, 12, 12, 12, 12, 12, 12, 4, 4, 4, 4, 4, 4, 4, 4],
    ),
    (
        "__XXXXX___/__XXX_____",
        2,
        "[OJS],[LOT],[ILOJ]",
        Piece::J,
        [3, 3, 1, 1, 7, 6, 5, 5, 3, 2, 1, 1, 3, 2, 1, 1],
    ),
    (
        "___XXX_XXX/XX_XXX___X",
        2,
        "[LJ],[TJ]",
        Piece::J,
        [1, 1, 0, 0, 3, 3, 0, 0, 1, 1, 0, 0, 1, 1, 0, 0],
    ),
    (
        "XXXXXXXX__/XXXXXX____/XXXXXXXX__",
        3,
        "[ILOJ]p2",
        Piece::L,
        [4, 4, 2, 2, 7, 7, 6, 6, 3, 3, 1, 1, 3, 3, 1, 1],
    ),
    (
        "XXXXX___XX/XXXXXX__XX/XXXXX___XX",
        3,
        "[OTJS]p3",
        Piece::T,
        [18, 16, 8, 8, 20, 14, 12, 12, 6, 4, 2, 2, 6, 4, 2, 2],
    ),
    (
        "XXXXXX__XX/XXXXXX___X/XXXXXX___X",
        3,
        "[ILOZJ]p2",
        Piece::O,
        [8, 6, 2, 2, 11, 9, 4, 4, 5, 4, 1, 1, 5, 4, 1, 1],
    ),
    (
        "XXXXXXX___/XXXXXXXX_X/XXXXX____X",
        3,
        "[ILTJ]p3",
        Piece::T,
        [20, 12, 8, 8, 14, 12, 12, 12, 6, 4, 2, 2, 6, 4, 2, 2],
    ),
    (
        "X__XX_____/XX_XX___XX/XX_X____XX",
        3,
        "[LT]p2,[ILZS]p2",
        Piece::L,
        [8, 8, 0, 0, 16, 16, 0, 0, 6, 6, 0, 0, 6, 6, 0, 0],
    ),
    (
        "XXX__XXXXX/X____XXXXX/XXX__XXXXX",
        3,
        "[ILOTJ]p2",
        Piece::O,
        [4, 4, 2, 2, 6, 6, 1, 1, 3, 3, 1, 1, 3, 3, 1, 1],
    ),
    (
        "X__XXXXXXX/_____XXXXX/XX_XXXXXXX",
        3,
        "[LZTJS]p2",
        Piece::L,
        [2, 2, 0, 0, 8, 4, 0, 0, 2, 1, 0, 0, 2, 1, 0, 0],
    ),
    (
        "___XXXXXXX/___XXXXXXX/__XXXXXXXX",
        3,
        "[LZTJS]p2",
        Piece::L,
        [8, 8, 6, 6, 13, 13, 12, 12, 5, 5, 4, 4, 5, 5, 4, 4],
    ),
    (
        "XXXXXX__XX/XXXXXX__XX/XX____XXXX",
        3,
        "[IOTJS]p2",
        Piece::I,
        [2, 2, 2, 2, 4, 8, 4, 4, 1, 2, 1, 1, 1, 2, 1, 1],
    ),
    (
        "XXXXXX____/XXXXXXXX_X/XXXXXXXX_X",
        3,
        "[IL]p2",
        Piece::I,
        [0, 0, 0, 0, 0, 0, 0, 0, 0, 0, 0, 0, 0, 0, 0, 0],
    ),
    (
        "XXXX____XX/X_____X_XX/XXXXX_X_XX",
        3,
        "[IJ],[LT],[LZJ]",
        Piece::L,
        [1, 1, 1, 1, 4, 4, 3, 3, 1, 1, 0, 0, 1, 1, 0, 0],
    ),
    (
        "XXXX____XX/XXXX___XXX/XXXX__XXXX/XXXX___XXX",
        4,
        "[TJS],[IOT],[LOJS]",
        Piece::T,
        [13, 12, 7, 6, 24, 17, 10, 9, 5, 4, 1, 1, 5, 4, 1, 1],
    ),
    (
        "XX__XX__XX/XX__XX_XXX/XX___X_XXX/XX_XXXXXXX",
        4,
        "[OZT],[ILJ],[OTJS]",
        Piece::J,
        [3, 1, 0, 0, 18, 6, 0, 0, 2, 1, 0, 0, 2, 1, 0, 0],
    ),
    (
        "XXXXXX__XX/XXXXXX__XX/XXXXXX__XX/XXXXXX__XX",
        4,
        "[IJ],[IO],[LO]",
        Piece::L,
        [6, 6, 6, 4, 6, 6, 6, 4, 2, 2, 2, 0, 2, 2, 2, 0],
    ),
    (
        "XXXXXXXX_X/X__XXXXX_X/X____XXX_X/XXX__XXX_X",
        4,
        "[IOTJ]p4",
        Piece::O,
        [0, 0, 0, 0, 4, 4, 4, 0, 0, 0, 0, 0, 0, 0, 0, 0],
    ),
    (
        "XXXXXXX_XX/XXXXXXX_XX/XXXXXXX_XX/XXX__XX_XX/XXX__XXXXX",
        5,
        "[IOZT]p3",
        Piece::O,
        [8, 8, 8, 0, 6, 6, 6, 0, 2, 2, 2, 0, 2, 2, 2, 0],
    ),
    (
        "XXXXXX__XX/XXXXXX__XX/__XXXX__XX/_XXX____XX/_XXX__XXXX",
        5,
        "[LOZJ]p4",
        Piece::L,
        [0, 0, 0, 0, 8, 8, 8, 8, 0, 0, 0, 0, 0, 0, 0, 0],
    ),
    (
        "X__XXXXXXX/X__XXXXXXX/XXXXXXX__X/XXXXXXXX_X/XXXXXXXX_X",
        5,
        "[LOJS]p3",
        Piece::L,
        [8, 8, 8, 8, 6, 6, 6, 6, 2, 2, 2, 2, 2, 2, 2, 2],
    ),
    (
        "XX__XXXXXX/XXX__XXXXX/XXX_XXXXXX/XXX_XXXXXX/XXX_XXXXXX/XXX_XXXXXX",
        6,
        "[IOZTS]p2",
        Piece::Z,
        [2, 2, 0, 0, 8, 8, 0, 0, 2, 2, 0, 0, 2, 2, 0, 0],
    ),
    (
        "XXXX__XXXX/XXXX__XXXX/XXXXX__XXX/XXXXX__XXX/XXXXXXXX_X/XXXXXX___X",
        6,
        "[OZ],[OZ],[LZ]",
        Piece::O,
        [2, 0, 0, 0, 4, 0, 0, 0, 2, 0, 0, 0, 2, 0, 0, 0],
    ),
    (
        "XXX__XXXXX/XXX__XXXXX/XXXX____XX/XX_XXXXXXX/XX_XXXXXXX/XX_XXXXXXX/XX_XXXXXXX",
        7,
        "[IOJ]p2,[IT]",
        Piece::I,
        [2, 2, 2, 0, 6, 6, 3, 0, 2, 2, 1, 0, 2, 2, 1, 0],
    ),
    (
        "XXXXX__XXX/XXXXX__XXX/__XXXXXXXX/__XXXXX_XX/XXXXXXX_XX/XXXXXXX_XX/XXXXXXX_XX",
        7,
        "[OJ],[IO],[IOS]",
        Piece::T,
        [2, 2, 2, 0, 1, 1, 1, 0, 1, 1, 1, 0, 1, 1, 1, 0],
    ),
    (
        "XXXXXX__XX/XXXXX__XXX/XXXXXXX__X/XXXXXXX__X/XXXXXXXX_X/XXXXXXX_XX/XXXXXXX_XX/XXXXXXX_XX",
        8,
        "[ILTS]p4",
        Piece::T,
        [12, 12, 0, 0, 4, 4, 0, 0, 2, 2, 0, 0, 2, 2, 0, 0],
    ),
    (
        "XXXXXXXXX_/XXXXXXXXX_/XXXXXXXXX_/XXXXXXXXX_/XXXXXXXXX_/XXXXXXXXX_/XXXXXXXXX_/XXXXXXXXX_",
        8,
        "[IT],[IL],[IO]",
        Piece::I,
        [4, 4, 4, 0, 6, 6, 6, 0, 2, 2, 2, 0, 2, 2, 2, 0],
    ),
];
