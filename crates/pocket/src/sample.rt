ghost use Rattle.std.specs.Prelude.{◌≡◌, ◌∷◌, [], IfOk, codes, map};

use pocket_keeper::KeptRow;
use pocket_types::{Seq, Text};
use std::alloc::{AllocError, Global};

// The key and the value of each row, rising by key.
const SAMPLE: &[(&str, &str)] = &[
    (
        "c/drafts",
        concat!(
            r#"{"createRule":null,"deleteRule":null,"fields":["#,
            r#"{"hidden":false,"max":5000,"min":0,"name":"text","required":false,"type":"text","unique":false}],"listRule":null,"#,
            r#""name":"drafts","type":"base","updateRule":null,"viewRule":null}"#,
        ),
    ),
    (
        "c/logs",
        concat!(
            r#"{"createRule":null,"deleteRule":null,"fields":["#,
            r#"{"hidden":false,"max":5000,"min":0,"name":"line","required":false,"type":"text","unique":false}],"listRule":null,"#,
            r#""name":"logs","type":"base","updateRule":null,"viewRule":null}"#,
        ),
    ),
    (
        "c/notes",
        concat!(
            r#"{"createRule":"","deleteRule":"","fields":["#,
            r#"{"hidden":false,"max":5000,"min":0,"name":"text","required":false,"type":"text","unique":false}],"listRule":"","#,
            r#""name":"notes","type":"base","updateRule":"","viewRule":""}"#,
        ),
    ),
    (
        "c/projects",
        concat!(
            r#"{"createRule":null,"deleteRule":null,"fields":["#,
            r#"{"hidden":false,"max":5000,"min":0,"name":"title","required":true,"type":"text","unique":false},"#,
            r#"{"cascadeDelete":false,"collection":"users","hidden":false,"maxSelect":1,"name":"owner","required":false,"type":"relation","unique":false},"#,
            r#"{"cascadeDelete":false,"collection":"users","hidden":false,"maxSelect":50,"name":"members","required":false,"type":"relation"}],"#,
            r#""listRule":"@request.auth.id != \"\" && members.id ?= @request.auth.id","name":"projects","type":"base","#,
            r#""updateRule":"@request.auth.id != \"\" && owner = @request.auth.id && @request.body.members:isset = false","#,
            r#""viewRule":"@request.auth.id != \"\" && members.id ?= @request.auth.id"}"#,
        ),
    ),
    (
        "c/tasks",
        concat!(
            r#"{"createRule":"@request.auth.id != \"\" && project.members.id ?= @request.auth.id","deleteRule":null,"fields":["#,
            r#"{"hidden":false,"max":5000,"min":0,"name":"title","required":true,"type":"text","unique":false},"#,
            r#"{"cascadeDelete":true,"collection":"projects","hidden":false,"maxSelect":1,"name":"project","required":true,"type":"relation","unique":false},"#,
            r#"{"cascadeDelete":false,"collection":"users","hidden":false,"maxSelect":1,"name":"assignee","required":false,"type":"relation","unique":false},"#,
            r#"{"hidden":false,"maxSelect":3,"name":"tags","required":false,"type":"select","values":["bug","docs","urgent"]},"#,
            r#"{"hidden":false,"max":null,"min":null,"name":"count","required":false,"type":"number","unique":false},"#,
            r#"{"hidden":false,"max":"","min":"","name":"due","required":false,"type":"date","unique":false}],"#,
            r#""listRule":"@request.auth.id != \"\" && project.members.id ?= @request.auth.id","name":"tasks","type":"base","#,
            r#""updateRule":"@request.auth.id != \"\" && project.members.id ?= @request.auth.id && @request.body.project:isset = false","#,
            r#""viewRule":"@request.auth.id != \"\" && project.members.id ?= @request.auth.id"}"#,
        ),
    ),
    (
        "c/users",
        concat!(
            r#"{"createRule":null,"deleteRule":null,"fields":["#,
            r#"{"hidden":false,"max":5000,"min":0,"name":"name","required":true,"type":"text","unique":false},"#,
            r#"{"hidden":false,"max":5000,"min":0,"name":"team","required":false,"type":"text","unique":false},"#,
            r#"{"hidden":true,"max":null,"min":null,"name":"salary","required":false,"type":"number","unique":false}],"#,
            r#""listRule":"@request.auth.id != \"\" && (team = @request.auth.team || id = @request.auth.id)","name":"users","#,
            r#""type":"auth","updateRule":null,"#,
            r#""viewRule":"@request.auth.id != \"\" && (team = @request.auth.team || id = @request.auth.id)"}"#,
        ),
    ),
    (
        "r/logs/log000000000001",
        r#"{"created":"2024-01-01 00:00:00.000Z","line":"boot","updated":"2024-01-01 00:00:00.000Z"}"#,
    ),
    (
        "r/notes/note00000000001",
        r#"{"created":"2024-01-01 00:00:00.000Z","text":"hello","updated":"2024-01-01 00:00:00.000Z"}"#,
    ),
    (
        "r/projects/proj00000000one",
        concat!(
            r#"{"created":"2024-01-01 00:00:00.000Z","members":["user00000000ann","user00000000bob"],"owner":"user00000000ann","#,
            r#""title":"Site","updated":"2024-01-01 00:00:00.000Z"}"#,
        ),
    ),
    (
        "r/projects/proj00000000two",
        concat!(
            r#"{"created":"2024-01-01 00:00:00.000Z","members":["user00000000ann","user00000000cyd"],"owner":"user00000000cyd","#,
            r#""title":"Shop","updated":"2024-01-01 00:00:00.000Z"}"#,
        ),
    ),
    (
        "r/tasks/task00000000001",
        concat!(
            r#"{"assignee":"user00000000bob","count":3,"created":"2024-01-01 00:00:00.000Z","due":"2024-05-03 00:00:00.000Z","#,
            r#""project":"proj00000000one","tags":["bug","urgent"],"title":"Fix login","updated":"2024-01-01 00:00:00.000Z"}"#,
        ),
    ),
    (
        "r/tasks/task00000000002",
        concat!(
            r#"{"assignee":"user00000000cyd","count":0,"created":"2024-01-01 00:00:00.000Z","due":"","project":"proj00000000one","#,
            r#""tags":["docs"],"title":"Write guide","updated":"2024-01-01 00:00:00.000Z"}"#,
        ),
    ),
    (
        "r/tasks/task00000000003",
        concat!(
            r#"{"assignee":"user00000000cyd","count":9007199254740991,"created":"2024-01-01 00:00:00.000Z","due":"","#,
            r#""project":"proj00000000two","tags":[],"title":"Open shop","updated":"2024-01-01 00:00:00.000Z"}"#,
        ),
    ),
    (
        "r/users/user00000000ann",
        r#"{"created":"2024-01-01 00:00:00.000Z","name":"Ann","salary":100,"team":"red","updated":"2024-01-01 00:00:00.000Z"}"#,
    ),
    (
        "r/users/user00000000bob",
        r#"{"created":"2024-01-01 00:00:00.000Z","name":"Bob","salary":90,"team":"red","updated":"2024-01-01 00:00:00.000Z"}"#,
    ),
    (
        "r/users/user00000000cyd",
        r#"{"created":"2024-01-01 00:00:00.000Z","name":"Cyd","salary":80,"team":"blue","updated":"2024-01-01 00:00:00.000Z"}"#,
    ),
    (
        "t/aaaaaaaaaaaaaaaaaaaaaaaaaaaaaaaa",
        r#"{"collection":"users","id":"user00000000ann","until":"9999-12-31 23:59:59.999Z"}"#,
    ),
    (
        "t/bbbbbbbbbbbbbbbbbbbbbbbbbbbbbbbb",
        r#"{"collection":"users","id":"user00000000bob","until":"9999-12-31 23:59:59.999Z"}"#,
    ),
];

fn row(alloc: Global, key: &str, value: &str) -> Result<KeptRow, AllocError>
    ensures { IfOk result (λ row. row ≡ record { key = key.now; value = value.now }) }
{
    let key = Text::from_str(alloc, key)?;
    let value = Text::from_str(alloc, value)?;
    Ok(KeptRow { key, value })
}

/// The rows of these keys and values.
fn rows_of(alloc: Global, table: &[(&str, &str)]) -> Result<Seq<KeptRow>, AllocError>
    ensures { IfOk result (λ rows. map (λ row. row.key) rows ≡ map (λ pair. pair.0.now) table.now) }
{
    let mut rows = Seq::new(alloc);
    for (key, value) in table {
        rows.push(row(alloc, key, value)?)?;
    }
    Ok(rows)
}

/// The rows of the sample, rising by key: a small team's projects and tasks, which their members see, its users with the tokens of two
/// of them, and the collections drafts, logs and notes, of which the last is open to anyone.
pub fn sample_rows(alloc: Global) -> Result<Seq<KeptRow>, AllocError>
    ensures keys { IfOk result (λ rows. map (λ row. row.key) rows
        ≡ codes "c/drafts" ∷ codes "c/logs" ∷ codes "c/notes" ∷ codes "c/projects" ∷ codes "c/tasks" ∷ codes "c/users"
        ∷ codes "r/logs/log000000000001" ∷ codes "r/notes/note00000000001" ∷ codes "r/projects/proj00000000one"
        ∷ codes "r/projects/proj00000000two" ∷ codes "r/tasks/task00000000001" ∷ codes "r/tasks/task00000000002"
        ∷ codes "r/tasks/task00000000003" ∷ codes "r/users/user00000000ann" ∷ codes "r/users/user00000000bob"
        ∷ codes "r/users/user00000000cyd" ∷ codes "t/aaaaaaaaaaaaaaaaaaaaaaaaaaaaaaaa" ∷ codes "t/bbbbbbbbbbbbbbbbbbbbbbbbbbbbbbbb"
        ∷ []) }
{
    rows_of(alloc, SAMPLE)
}
