//! The format as a JSON Schema.

const SCHEMA: &str = r##"{
  "$schema": "https://json-schema.org/draft/2020-12/schema",
  "title": "Machine",
  "description": "A machine: its states, and the rules by which events lead from one to another.",
  "type": "object",
  "properties": {
    "$schema": { "description": "Where this schema is, for an editor.", "type": "string" },
    "id": { "$ref": "#/$defs/name", "description": "The machine's name." },
    "description": { "$ref": "#/$defs/description" },
    "context": {
      "description": "The registers, each with its first value: a number, null for nothing, or a text.",
      "type": "object",
      "propertyNames": { "$ref": "#/$defs/name" },
      "additionalProperties": {
        "anyOf": [{ "$ref": "#/$defs/number" }, { "type": ["string", "null"] }]
      },
      "maxProperties": 64
    },
    "args": {
      "description": "The arguments of a start, in order. With `initial` one that has a register's name goes into that register.",
      "type": "array",
      "items": { "$ref": "#/$defs/name" },
      "uniqueItems": true
    },
    "initial": {
      "description": "The state in which a machine begins.",
      "$ref": "#/$defs/name"
    },
    "start": {
      "description": "A rule or a list of rules: the first whose guard holds says how a machine begins. An argument is read as `arg.NAME`.",
      "anyOf": [
        { "$ref": "#/$defs/startRule" },
        { "type": "array", "items": { "$ref": "#/$defs/startRule" } }
      ]
    },
    "states": {
      "description": "The states, by their names.",
      "type": "object",
      "propertyNames": { "$ref": "#/$defs/name" },
      "additionalProperties": { "anyOf": [{ "$ref": "#/$defs/state" }, { "type": "null" }] },
      "minProperties": 1,
      "maxProperties": 1000
    },
    "on": {
      "description": "Rules of events in any state. Those of the state come before them.",
      "$ref": "#/$defs/on"
    },
    "last": {
      "description": "The last word of a machine that has ended, computed of its registers and of `reason`. Without it the last word is 0.",
      "$ref": "#/$defs/expression"
    }
  },
  "additionalProperties": false,
  "required": ["states"],
  "oneOf": [{ "required": ["initial"] }, { "required": ["start"] }],
  "$defs": {
    "name": {
      "type": "string",
      "pattern": "^(?!(?:event|caller|from|reason|none|min|max|and|was|arg)$)[A-Za-z][A-Za-z0-9_]{0,63}$"
    },
    "timer": {
      "type": "string",
      "pattern": "^(?!(?:caller|from|reason|none|min|max|and|was|arg)$)[A-Za-z][A-Za-z0-9_]{0,63}$"
    },
    "description": {
      "description": "What a reader is told. Nothing else looks at it.",
      "type": "string"
    },
    "number": { "type": "integer", "minimum": 0, "maximum": 18446744073709551615 },
    "expression": {
      "description": "A number, or a text that is computed from left to right: registers, `event`, numbers, 'texts', `none`, and + - * / % min max. Brackets may stand at the beginning alone.",
      "anyOf": [{ "$ref": "#/$defs/number" }, { "type": "string", "minLength": 1 }]
    },
    "guard": {
      "description": "What has to hold: comparisons by == != < <= > >=, parted by `and`.",
      "type": "string",
      "minLength": 1
    },
    "assign": {
      "description": "Registers and what they are given, in order. Each right side sees the registers as they were before the rule; in a rule of a start, as they are now.",
      "type": "object",
      "propertyNames": { "$ref": "#/$defs/name" },
      "additionalProperties": { "$ref": "#/$defs/expression" }
    },
    "target": {
      "description": "The state that is next. The same state is no change, and is not entered again.",
      "$ref": "#/$defs/name"
    },
    "stop": {
      "description": "The machine ends for this reason, a number of 32 bits.",
      "anyOf": [
        { "type": "integer", "minimum": 0, "maximum": 4294967295 },
        { "type": "string", "minLength": 1 }
      ]
    },
    "noReenter": { "const": false },
    "state": {
      "description": "A state.",
      "type": "object",
      "properties": {
        "description": { "$ref": "#/$defs/description" },
        "entry": {
          "description": "A rule or a list of rules: the first whose guard holds is taken where the state is entered.",
          "anyOf": [
            { "$ref": "#/$defs/entryRule" },
            { "type": "array", "items": { "$ref": "#/$defs/entryRule" } }
          ]
        },
        "on": { "description": "Rules of events in this state.", "$ref": "#/$defs/on" },
        "after": {
          "description": "A state time-out of so many milliseconds, which is set where the state is entered, and its rules: { \"10000\": \"locked\" }.",
          "type": "object",
          "additionalProperties": { "$ref": "#/$defs/rules" },
          "minProperties": 1,
          "maxProperties": 1
        }
      },
      "additionalProperties": false
    },
    "on": {
      "type": "object",
      "patternProperties": {
        "^call(?: +(?:\\*|(?!(?:event|caller|from|reason|none|min|max|and|was|arg)$)[A-Za-z][A-Za-z0-9_]{0,63}))?$": {
          "description": "What comes of a call. Answer it by `reply`, now or later.",
          "$ref": "#/$defs/rules"
        },
        "^cast(?: +(?:\\*|(?!(?:event|caller|from|reason|none|min|max|and|was|arg)$)[A-Za-z][A-Za-z0-9_]{0,63}))?$": {
          "description": "What comes of a cast.",
          "$ref": "#/$defs/rules"
        },
        "^info(?: +(?:\\*|(?!(?:event|caller|from|reason|none|min|max|and|was|arg)$)[A-Za-z][A-Za-z0-9_]{0,63}))?$": {
          "description": "What comes of an info, as of a message.",
          "$ref": "#/$defs/rules"
        },
        "^internal(?: +(?:\\*|(?!(?:event|caller|from|reason|none|min|max|and|was|arg)$)[A-Za-z][A-Za-z0-9_]{0,63}))?$": {
          "description": "What comes of an event that the machine itself raised.",
          "$ref": "#/$defs/rules"
        },
        "^timeout(?: +(?:\\*|(?!(?:caller|from|reason|none|min|max|and|was|arg)$)[A-Za-z][A-Za-z0-9_]{0,63}))?$": {
          "description": "What comes of a time-out: `timeout event`, `timeout state`, that of a name, or any.",
          "$ref": "#/$defs/rules"
        },
        "^\\*(?: +(?:\\*|(?!(?:event|caller|from|reason|none|min|max|and|was|arg)$)[A-Za-z][A-Za-z0-9_]{0,63}))?$": {
          "description": "What comes of events of any kind: of all, or of those of a symbol.",
          "$ref": "#/$defs/rules"
        }
      },
      "additionalProperties": false
    },
    "rules": {
      "anyOf": [
        { "$ref": "#/$defs/oneRule" },
        { "type": "array", "items": { "$ref": "#/$defs/oneRule" }, "maxItems": 64 }
      ]
    },
    "oneRule": { "anyOf": [{ "$ref": "#/$defs/name" }, { "$ref": "#/$defs/rule" }] },
    "rule": {
      "description": "A rule. Without `target`, `reenter` and `stop` the state stays; {} takes the event and does nothing.",
      "type": "object",
      "properties": {
        "description": { "$ref": "#/$defs/description" },
        "guard": { "$ref": "#/$defs/guard" },
        "target": { "$ref": "#/$defs/target" },
        "reenter": {
          "description": "The state stays, and is entered again.",
          "type": "boolean"
        },
        "stop": { "$ref": "#/$defs/stop" },
        "assign": { "$ref": "#/$defs/assign" },
        "actions": {
          "description": "What is asked for, one action or a list. Actions see the registers after the assignments.",
          "anyOf": [
            { "$ref": "#/$defs/action" },
            { "type": "array", "items": { "$ref": "#/$defs/action" } }
          ]
        }
      },
      "additionalProperties": false,
      "dependentSchemas": {
        "target": { "properties": { "reenter": { "$ref": "#/$defs/noReenter" } } },
        "stop": { "properties": { "target": false, "reenter": { "$ref": "#/$defs/noReenter" } } }
      }
    },
    "entryRule": {
      "description": "What comes of entering the state. It cannot lead to another state; it may stop the machine.",
      "type": "object",
      "properties": {
        "description": { "$ref": "#/$defs/description" },
        "guard": { "$ref": "#/$defs/guard" },
        "reenter": { "$ref": "#/$defs/noReenter" },
        "stop": { "$ref": "#/$defs/stop" },
        "assign": { "$ref": "#/$defs/assign" },
        "actions": {
          "description": "What is asked for, one action or a list. An entry cannot postpone, raise or send.",
          "anyOf": [
            { "$ref": "#/$defs/entryAction" },
            { "type": "array", "items": { "$ref": "#/$defs/entryAction" } }
          ]
        }
      },
      "additionalProperties": false
    },
    "startRule": {
      "description": "How a machine begins. Without `target` and `stop` the start is ignored.",
      "type": "object",
      "properties": {
        "description": { "$ref": "#/$defs/description" },
        "guard": { "$ref": "#/$defs/guard" },
        "target": { "$ref": "#/$defs/target" },
        "reenter": { "$ref": "#/$defs/noReenter" },
        "stop": { "$ref": "#/$defs/stop" },
        "assign": { "$ref": "#/$defs/assign" },
        "actions": {
          "description": "What is asked for, one action or a list. A start cannot postpone.",
          "anyOf": [
            { "$ref": "#/$defs/startAction" },
            { "type": "array", "items": { "$ref": "#/$defs/startAction" } }
          ]
        }
      },
      "additionalProperties": false,
      "dependentSchemas": { "stop": { "properties": { "target": false } } }
    },
    "action": {
      "anyOf": [{ "$ref": "#/$defs/startAction" }, { "$ref": "#/$defs/postpone" }]
    },
    "startAction": {
      "anyOf": [
        { "$ref": "#/$defs/entryAction" },
        { "$ref": "#/$defs/raise" },
        { "$ref": "#/$defs/send" }
      ]
    },
    "entryAction": {
      "anyOf": [
        { "$ref": "#/$defs/reply" },
        { "$ref": "#/$defs/set" },
        { "$ref": "#/$defs/cancel" },
        { "$ref": "#/$defs/update" },
        { "$ref": "#/$defs/hibernate" }
      ]
    },
    "postpone": {
      "description": "The event waits until the state has changed.",
      "anyOf": [
        { "const": "postpone" },
        {
          "type": "object",
          "properties": { "postpone": { "const": true } },
          "additionalProperties": false,
          "required": ["postpone"]
        }
      ]
    },
    "hibernate": {
      "description": "Is accepted, and has no effect.",
      "anyOf": [
        { "const": "hibernate" },
        {
          "type": "object",
          "properties": { "hibernate": { "const": true } },
          "additionalProperties": false,
          "required": ["hibernate"]
        }
      ]
    },
    "reply": {
      "type": "object",
      "properties": {
        "reply": { "description": "The symbol with which a call is answered.", "$ref": "#/$defs/name" },
        "with": { "$ref": "#/$defs/with" },
        "to": {
          "description": "Which call is answered: a register that has the tag of one. Without it, the call that is handled.",
          "$ref": "#/$defs/operand"
        }
      },
      "additionalProperties": false,
      "required": ["reply"]
    },
    "raise": {
      "type": "object",
      "properties": {
        "raise": {
          "description": "The symbol of an event that is handled before all that was not handled yet.",
          "$ref": "#/$defs/name"
        },
        "with": { "$ref": "#/$defs/with" },
        "as": {
          "description": "As what it is inserted. Without it, as internal.",
          "enum": ["internal", "cast", "info"]
        }
      },
      "additionalProperties": false,
      "required": ["raise"]
    },
    "set": {
      "type": "object",
      "properties": {
        "set": {
          "description": "The time-out that is set: `event`, `state`, or a name.",
          "$ref": "#/$defs/timer"
        },
        "after": {
          "description": "After how many milliseconds it comes; `none` stops it.",
          "$ref": "#/$defs/expression"
        },
        "say": { "$ref": "#/$defs/say" },
        "with": { "$ref": "#/$defs/with" }
      },
      "additionalProperties": false,
      "required": ["set", "after"]
    },
    "cancel": {
      "type": "object",
      "properties": {
        "cancel": {
          "description": "The time-out that is stopped: `event`, `state`, or a name.",
          "$ref": "#/$defs/timer"
        }
      },
      "additionalProperties": false,
      "required": ["cancel"]
    },
    "update": {
      "type": "object",
      "properties": {
        "update": {
          "description": "The running time-out that is given another symbol: `event`, `state`, or a name.",
          "$ref": "#/$defs/timer"
        },
        "say": { "$ref": "#/$defs/say" },
        "with": { "$ref": "#/$defs/with" }
      },
      "additionalProperties": false,
      "required": ["update"]
    },
    "send": {
      "type": "object",
      "properties": {
        "send": {
          "description": "The symbol of a message that is sent.",
          "$ref": "#/$defs/name"
        },
        "with": { "$ref": "#/$defs/with" },
        "to": {
          "description": "To which machine: a register that has one.",
          "$ref": "#/$defs/operand"
        }
      },
      "additionalProperties": false,
      "required": ["send", "to"]
    },
    "with": {
      "description": "What is said with it. Without it, nothing.",
      "$ref": "#/$defs/expression"
    },
    "say": {
      "description": "The symbol that the time-out says. Without it, `timeout`.",
      "$ref": "#/$defs/name"
    },
    "operand": { "type": "string", "minLength": 1 }
  }
}
"##;

/// The format of descriptions as a JSON Schema, of the version of 2020-12. Editors check by it, and show what a member
/// means. What wants names, as that a state is there, it does not say.
pub fn schema() -> &'static str {
    SCHEMA
}
