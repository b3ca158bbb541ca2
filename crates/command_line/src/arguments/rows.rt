//! The commands and their arguments, as rows.
use clap::ArgAction;

/// A command.
#[derive(Clone, Copy)]
pub(crate) struct CommandRow {
    pub(crate) name: &'static str,
    pub(crate) about: &'static str,
    /// What its help prints behind its arguments.
    pub(crate) after: &'static str,
    /// In the order in which its help names them.
    pub(crate) arguments: &'static [ArgumentRow],
}

/// An argument of a command, which is read back by its name.
#[derive(Clone, Copy)]
pub(crate) struct ArgumentRow {
    pub(crate) name: &'static str,
    pub(crate) form: Form,
    pub(crate) help: &'static str,
}

/// How the words give an argument.
#[derive(Clone, Copy)]
pub(crate) enum Form {
    /// One word by its place.
    Word,
    /// One or more words by their place.
    Words,
    /// `--name VALUE`, which has to be there, and what help calls the value.
    Needed(&'static str),
    /// `--name VALUE`, which has to be there where another argument is not.
    NeededWithout(&'static str, &'static str),
    /// `--name VALUE`, and what help calls the value.
    Value(&'static str),
    /// `--name VALUE`, which does not go with another argument.
    ValueNotWith(&'static str, &'static str),
    /// `--name VALUE`, which wants another argument beside it, and does not go with others.
    ValueWith(&'static str, &'static str, &'static [&'static str]),
    /// `--name VALUE`, what help calls the value, and a letter for it.
    Lettered(char, &'static str),
    /// `--name VALUE`, which may be there more than once, and what help calls the value.
    Repeated(&'static str),
    /// `--name` or `--name=VALUE`, which may be there more than once and wants another argument beside it, and what
    /// help calls the value. A value that is not there is empty.
    OptionalWith(&'static str, &'static str),
    /// `--name VALUE`, what help calls the value, and the words that it may be, of which the first is taken
    /// where it is not there.
    OneOf(&'static str, &'static [&'static str]),
    /// `--name VALUE`, what help calls the value, and the words that it may be; none is taken where it is not there.
    AnyOf(&'static str, &'static [&'static str]),
    /// `--name` alone.
    Flag,
    /// `--name` alone, and a letter for it.
    LetteredFlag(char),
    /// `--name` alone, which wants another argument beside it.
    FlagWith(&'static str),
    /// `--name` alone, which does not go with other arguments.
    FlagNotWith(&'static [&'static str]),
}

impl Form {
    pub(crate) fn is_by_place(self) -> bool {
        matches!(self, Form::Word | Form::Words)
    }

    /// Whether it has to be there, whatever else is.
    pub(crate) fn is_needed(self) -> bool {
        matches!(self, Form::Word | Form::Words | Form::Needed(_))
    }

    pub(crate) fn action(self) -> ArgAction {
        match self {
            Form::Words | Form::Repeated(_) | Form::OptionalWith(..) => ArgAction::Append,
            Form::Flag | Form::LetteredFlag(_) | Form::FlagWith(_) | Form::FlagNotWith(_) => {
                ArgAction::SetTrue
            }
            _ => ArgAction::Set,
        }
    }

    /// What help calls the value, where there is one.
    pub(crate) fn value_name(self) -> Option<&'static str> {
        match self {
            Form::Needed(called)
            | Form::NeededWithout(called, _)
            | Form::Value(called)
            | Form::ValueNotWith(called, _)
            | Form::ValueWith(called, ..)
            | Form::Lettered(_, called)
            | Form::Repeated(called)
            | Form::OptionalWith(called, _)
            | Form::OneOf(called, _)
            | Form::AnyOf(called, _) => Some(called),
            _ => None,
        }
    }
}

/// An argument's row: its name, form and help.
macro_rules! argument {
    ($name:literal, $form:expr, $help:literal) => {
        ArgumentRow {
            name: $name,
            form: $form,
            help: $help,
        }
    };
}

/// What a command that reads topologies prints behind its arguments: this, and where refusals are reported.
macro_rules! with_faults {
    ($text:literal) => {
        concat!(
            $text,
            "\n\ndocs/FAULTS.md says what to do about a file that is refused."
        )
    };
}

const FILE: ArgumentRow = argument!(
    "FILE",
    Form::Word,
    "A TopoJSON topology with a transform, or - for standard input"
);

/// What every command takes behind its own arguments.
pub(crate) const COMMON: &[ArgumentRow] = &[
    argument!(
        "output",
        Form::Lettered('o', "FILE"),
        "Print into this file, which is replaced whole or\nnot at all; - is standard output"
    ),
    argument!(
        "progress",
        Form::Flag,
        "A line on standard error for each file that is read\nand each stage that is done"
    ),
];

/// The commands, in the order in which help names them: those that make a topology of files, or validate them ..
pub(crate) const MAKING: &[CommandRow] = &[BUILD, CHECK, FAULTS];

/// .. those that take several topologies ..
pub(crate) const JOINING: &[CommandRow] = &[MERGE, REMOVE, DIFF];

/// .. and those that ask about one.
pub(crate) const ASKING: &[CommandRow] = &[FEATURE, MESH, NEIGHBORS, INFO];

const BUILD: CommandRow = CommandRow {
    name: "build",
    about: "Builds the topology of GeoJSON files and prints it",
    after: "Every coordinate has to be a whole number on the grid, which is\n\
            position * scale + translation. Scales are from 1 to 1000000, translations\n\
            from -1000000000000 to 1000000000000. A name that is given again gets the\n\
            features of both files.\n\n\
            A grid is four whole numbers with commas between and nothing else. `bad grid`\n\
            is said of 10,10 (two numbers), 0.5,1,0,0 (a point), 1, 1,0,0 (a blank) and\n\
            0,1,0,0 (a scale below 1). One that begins with a minus is written --grid=-1,..\n\n\
            Example: topotool build --grid 1,1,0,0 a=squares.json\n\n\
            examples/own-map has the way from degrees and metres to a grid,\n\
            docs/FAULTS.md what to do about a file that is refused.",
    arguments: &[
        argument!(
            "grid",
            Form::Needed("SX,SY,TX,TY"),
            "The transform: the scales of x and y, then\ntheir translations, whole numbers"
        ),
        argument!(
            "NAME=FILE",
            Form::Words,
            "A layer's name, up to the first `=`, and a GeoJSON file\nof its features, or - for standard input"
        ),
    ],
};

const CHECK: CommandRow = CommandRow {
    name: "check",
    about: "Says whether a topology is the canonical text of what it means",
    after: with_faults!(
        "Prints `canonical` with status 0, or `not canonical` with status 1. Behind that\n\
         line comes what --ids and --near found: a line of counts, and a line for each\n\
         finding, of --near for the first 10. The status is 1 where any test says no.\n\n\
         Two vertices are near each other where one feature has only the one, and\n\
         another only the other; features of all layers count. Such pairs come from\n\
         borders that were drawn twice, and leave slivers and gaps. Features are\n\
         numbered from 0, in the order in which `feature` prints them.\n\n\
         Example: topotool check country.topo.json\n\
         Example: topotool check --ids --near 1 country.topo.json"
    ),
    arguments: &[
        argument!(
            "ids",
            Form::Flag,
            "Test also whether each feature has an id, and none\nstands more than once in its layer"
        ),
        argument!(
            "near",
            Form::Value("STEPS"),
            "Test also for vertices of different features that lie\nat most so many grid steps apart in both directions,\nand are not one; from 1 to 100"
        ),
        FILE,
    ],
};

const FAULTS: CommandRow = CommandRow {
    name: "faults",
    about: "Prints all errors of files, with their lines and columns",
    after: with_faults!(
        "Prints a line for each error, in the form that editors and compilers share:\n\n  \
         FILE:LINE:COLUMN: NUMBER NAME PATH id ID member NAME\n\n\
         The id is that of the feature in which the error lies, where it has one; the\n\
         member is that of the properties in which a number is no integer. Both are\n\
         JSON. A missing member is placed at its object. The first line of a file is\n\
         the error that the other commands report. A file without errors has the line\n\
         FILE: no faults. Of each number the first ten errors of a file have lines,\n\
         and behind them stands how many more there are:\n\n  \
         FILE: NUMBER NAME: COUNT more (--all prints each)\n\n\
         Where an arc of a topology has an error, lists of arcs are not connected.\n\n\
         Status: 0 no errors, 4 some.\n\n\
         Example: topotool faults --grid 1,1,0,0 squares.json\n\
         Example: topotool faults --explain country.topo.json"
    ),
    arguments: &[
        argument!(
            "grid",
            Form::Value("SX,SY,TX,TY"),
            "The files are GeoJSON on this grid, as for build;\nwithout it they are topologies"
        ),
        argument!(
            "all",
            Form::Flag,
            "A line for each error, also where a file has more\nthan ten of one number"
        ),
        argument!(
            "json",
            Form::Flag,
            "One JSON array of objects, one for each error, in\nplace of lines"
        ),
        argument!(
            "explain",
            Form::Flag,
            "Add the first line of docs/FAULTS.md on each error"
        ),
        argument!(
            "FILE",
            Form::Words,
            "GeoJSON files or topologies;\n- is standard input, which can be read once"
        ),
    ],
};

const MERGE: CommandRow = CommandRow {
    name: "merge",
    about: "Merges topologies and prints the topology of all their features",
    after: with_faults!(
        "The printed bytes depend on the features alone: not on the order of the files,\n\
         their grouping, or repeats.\n\n\
         Example: topotool merge east.topo.json west.topo.json"
    ),
    arguments: &[
        argument!(
            "shape",
            Form::OneOf("SHAPE", &["left", "right", "halves"]),
            "The grouping of the files: left as ((0,1),2), right as\n(0,(1,2)), or halves. The bytes are the same: files\nare joined by halves, whatever it says"
        ),
        argument!(
            "FILE",
            Form::Words,
            "Topologies, all with the same transform;\n- is standard input, which can be read once"
        ),
    ],
};

const REMOVE: CommandRow = CommandRow {
    name: "remove",
    about: "Prints a topology without the features of another one",
    after: with_faults!(
        "A feature goes where REMOVED has one under the same layer's name with the same\n\
         id, properties and geometry. Others of REMOVED change nothing. Layers keep\n\
         their names, also when they are empty.\n\n\
         Example: topotool remove country.topo.json east.topo.json"
    ),
    arguments: &[
        FILE,
        argument!(
            "REMOVED",
            Form::Word,
            "A topology with the same transform, of the features to\ntake out, or - for standard input"
        ),
    ],
};

const DIFF: CommandRow = CommandRow {
    name: "diff",
    about: "Prints which features two topologies have alone, and which differ",
    after: with_faults!(
        "Features of layers of one name pair by their ids, or by the value of a\n\
         property. A feature without one, or whose id or value stands more than once in\n\
         its layer, does not pair; a value that is null is none. A feature that both\n\
         topologies have is not printed, a pair that differs is a change, and all\n\
         others are removed or added. Rings that begin at another vertex are the same.\n\n\
         Each line begins with - removed, + added, or ~ changed. Then come the layer,\n\
         the id or the value, and the properties; or, after ~, what differs:\n\n  \
         - layer \"roads\"\n  \
         - \"towns\" 7 {\"name\":\"Ulm\"}\n  \
         ~ \"towns\" 9 \"name\": \"a\" -> \"b\"; geometry: 1 vertex gone, 2 new\n\n\
         All names and values are JSON: null is no id, and missing is said of a\n\
         property that one of both hasn't. A line of layer is for one that only one\n\
         topology has. Geometries differ by `ring direction only` or\n\
         `line direction only` (the same rings or lines, some of which run the other\n\
         way), by `vertex order only` (the same kind and vertices), or by vertices,\n\
         each counted once, after `KIND -> KIND, ` where the kinds differ. The last\n\
         line counts.\n\n\
         Status: 0 nothing differs, 1 something does, from 2 on as for other commands.\n\n\
         Example: topotool diff old.topo.json country.topo.json"
    ),
    arguments: &[
        argument!("layer", Form::Value("NAME"), "Only this layer"),
        argument!(
            "key",
            Form::Value("PROPERTY"),
            "Pair features by the value of this property\nin place of their ids"
        ),
        argument!("json", Form::Flag, "One JSON object in place of lines"),
        argument!(
            "OLD",
            Form::Word,
            "A TopoJSON topology with a transform, or - for standard input"
        ),
        argument!(
            "NEW",
            Form::Word,
            "A topology with the same transform, or - for standard input"
        ),
    ],
};

const FEATURE: CommandRow = CommandRow {
    name: "feature",
    about: "Prints a layer as a GeoJSON FeatureCollection",
    after: with_faults!(
        "With --seq each feature is one line: newline-delimited GeoJSON, without record\n\
         marks, which ogr2ogr, tippecanoe and jq read.\n\n\
         Example: topotool feature --layer districts country.topo.json\n\
         Example: topotool feature --seq country.topo.json"
    ),
    arguments: &[
        argument!(
            "layer",
            Form::NeededWithout("NAME", "seq"),
            "The layer to print; with --seq it may be left out:\nthen all layers, by their names"
        ),
        argument!(
            "seq",
            Form::Flag,
            "A feature a line in place of a FeatureCollection"
        ),
        FILE,
    ],
};

const MESH: CommandRow = CommandRow {
    name: "mesh",
    about: "Prints borders as a GeoJSON MultiLineString, each stretch once",
    after: with_faults!(
        "With --by a stretch is printed where two features have it whose values of the\n\
         property differ. A feature without the property, or where it is null, differs\n\
         from every other. What one feature has alone is not printed.\n\n\
         Example: topotool mesh --edges interior country.topo.json\n\
         Example: topotool mesh --by name country.topo.json"
    ),
    arguments: &[
        argument!(
            "layer",
            Form::Value("NAME"),
            "Only this layer's features;\nwithout it, those of all layers"
        ),
        argument!(
            "edges",
            Form::OneOf("EDGES", &["all", "interior", "exterior"]),
            "all, or interior for those between two\nfeatures, or exterior for those of one"
        ),
        argument!(
            "by",
            Form::ValueNotWith("PROPERTY", "edges"),
            "Only borders between features whose values of this\nproperty differ; not with --edges"
        ),
        FILE,
    ],
};

const NEIGHBORS: CommandRow = CommandRow {
    name: "neighbors",
    about: "Prints which features of a layer share a border",
    after: with_faults!(
        "Prints a list for each feature, in the order in which `feature` prints them,\n\
         of the numbers of the others, from 0. To touch in single points is not to\n\
         share a border. A feature without the property of --by, or where it is null,\n\
         differs from every other.\n\n\
         Example: topotool neighbors --layer districts country.topo.json\n\
         Example: topotool neighbors --by name --layer districts country.topo.json\n\
         Example: topotool neighbors --ids --keyed --layer districts country.topo.json"
    ),
    arguments: &[
        argument!("layer", Form::Needed("NAME"), "The layer to look at"),
        argument!(
            "by",
            Form::Value("PROPERTY"),
            "Only neighbors whose value of this property differs\nfrom the feature's own"
        ),
        argument!(
            "ids",
            Form::Flag,
            "Their ids in place of their numbers;\neach feature of the layer has to have one"
        ),
        argument!(
            "keyed",
            Form::FlagWith("ids"),
            "With --ids: one JSON object, from each feature's id to\nthe list of ids; each id has to be unique"
        ),
        FILE,
    ],
};

const INFO: CommandRow = CommandRow {
    name: "info",
    about: "Prints the grid, the bbox and the counts of a topology",
    after: with_faults!(
        "Prints lines for people, or one JSON object. What is counted is the canonical\n\
         topology of the file's features, as `merge` of the one file prints it.\n\n\
         Example: topotool info country.topo.json"
    ),
    arguments: &[
        argument!("json", Form::Flag, "One JSON object in place of lines"),
        FILE,
    ],
};

/// What togrid takes, in the order in which its help names it.
pub(crate) const TOGRID: &[ArgumentRow] = &[
    argument!(
        "build",
        Form::Flag,
        "Print the topology of all files, each in its layer"
    ),
    argument!(
        "back",
        Form::FlagNotWith(&[
            "build",
            "faults",
            "step",
            "snap",
            "id",
            "number",
            "heights",
            "layer",
            "unclosed",
            "collapsed",
            "folded",
            "collections",
            "seq",
            "report",
            "strict",
        ]),
        "Print a topology in the map's unit again"
    ),
    argument!(
        "faults",
        Form::FlagNotWith(&[
            "build", "snap", "number", "rewind", "report", "strict", "quiet"
        ]),
        "Print all errors of the files that nothing fixes,\nwith their lines and columns"
    ),
    argument!(
        "step",
        Form::Value("S"),
        "The size of a step, 1 to 1,000,000 units\n[default: 0.000001, for degrees]"
    ),
    argument!(
        "unit",
        Form::Value("U"),
        "What 1 is in the output [default: 0.000001]"
    ),
    argument!(
        "snap",
        Form::Value("N"),
        "Join vertices at most N steps apart, N up to 10"
    ),
    argument!(
        "id",
        Form::Value("PROPERTY"),
        "The property that becomes the id of each feature"
    ),
    argument!(
        "number",
        Form::Flag,
        "A feature without an id gets its number, from 1"
    ),
    argument!(
        "layer",
        Form::Value("OBJECT"),
        "Of topologies only this object"
    ),
    argument!(
        "heights",
        Form::OneOf("HOW", &["drop", "refuse"]),
        "Third numbers of positions: drop,\nrefuse"
    ),
    argument!(
        "reals",
        Form::Repeated("HOW"),
        "Numbers of properties: whole, text, refuse,\nscale:P=K [default: whole]; with --back scale:P=K"
    ),
    argument!(
        "unclosed",
        Form::OneOf("HOW", &["close", "refuse"]),
        "Rings whose last position is not their first:\nclose, refuse"
    ),
    argument!(
        "collapsed",
        Form::OneOf("HOW", &["null", "drop", "refuse"]),
        "Features with no shape left: null,\ndrop, refuse"
    ),
    argument!(
        "folded",
        Form::OneOf("HOW", &["split", "refuse"]),
        "Lines and rings with a segment twice:\nsplit, refuse"
    ),
    argument!(
        "collections",
        Form::OneOf("HOW", &["split", "refuse"]),
        "GeometryCollections: split,\nrefuse"
    ),
    argument!(
        "seq",
        Form::Flag,
        "Sequences: a GeoJSON text a line. Files .ndjson,\n.geojsonl and .geojsons are read so anyway"
    ),
    argument!(
        "numbers",
        Form::OptionalWith("P,Q", "back"),
        "With --back: texts of these properties become\nnumbers; without P,Q, of columns of numbers"
    ),
    argument!(
        "like",
        Form::ValueWith("FILE", "back", &["quantize"]),
        "With --back: on the transform of this topology"
    ),
    argument!(
        "quantize",
        Form::ValueWith("N", "back", &[]),
        "With --back: whole numbers from 0 to N-1 along\neach axis"
    ),
    argument!(
        "rewind",
        Form::AnyOf("HOW", &["keep", "rfc7946", "d3"]),
        "How rings turn: keep, rfc7946, d3\n[default: keep; with --back d3]"
    ),
    argument!(
        "output",
        Form::Lettered('o', "PATH"),
        "The folder for the files; a file where one is\nprinted, and where PATH ends in .json or .geojson"
    ),
    argument!(
        "report",
        Form::Value("FILE"),
        "The report as JSON, for programs"
    ),
    argument!(
        "quiet",
        Form::LetteredFlag('q'),
        "No report on standard error"
    ),
    argument!("strict", Form::Flag, "Status 1 where something was lost"),
    argument!(
        "[NAME=]FILE",
        Form::Words,
        "A file, and the name of its layer, else that of the\nfile; - is standard input, which can be read once"
    ),
];
